// What there is to do: a file that is taken, and enough memory lent for it.
ghost use Rattle.reference.specs.Admitted.{Assessed, Measured, Accepted, Admitted};

use crate::lengths::Lengths;
use codec::refusal::{Lent, Refusal};
use codec::summary::Summary;
use codec::taken::TakenFile;

// What a file has, how many pictures it shows, and how much memory has to be lent for them.
#[derive(Clone, Copy)]
pub struct Needs {
    pub summary: Summary,
    pub shows: usize,
    pub lengths: Lengths,
}

// What a file has for which enough is lent, and how many pictures it shows.
#[derive(Clone, Copy)]
pub struct Job {
    pub summary: Summary,
    pub shows: usize,
}

// A file that was taken, how many pictures it shows, and how much memory has to be lent for them.
#[derive(Clone, Copy)]
pub(crate) struct Task<'a> {
    pub file: TakenFile<'a>,
    pub shows: usize,
    pub lengths: Lengths,
}

fn assess(file: &[u8]) -> Result<Task<'_>, Refusal>
    ensures { Assessed file.now result }
{
    let file = TakenFile::judge(file)?;
    let width = usize::from(file.summary.size.width);
    let height = usize::from(file.summary.size.height);
    let counts = file.counts();
    Ok(Task {
        file,
        shows: counts.shows,
        lengths: Lengths {
            colours: height * width * 3,
            depths: height * width,
            work: height * width * 4 + counts.triangles * 16,
            shown: counts.shows * height * width * 3,
        },
    })
}

// Judges a file and says what it needs.
pub fn measure(file: &[u8]) -> Result<Needs, Refusal>
    ensures { Measured file.now result }
{
    let task = assess(file)?;
    Ok(Needs {
        summary: task.file.summary,
        shows: task.shows,
        lengths: task.lengths,
    })
}

// Judges the file and then the lengths of the lent memory, in the order picture, work, shown.
pub(crate) fn accept(file: &[u8], lent: Lengths) -> Result<Task<'_>, Refusal>
    ensures { Accepted file.now lent result }
{
    let task = assess(file)?;
    let needs = task.lengths;
    if lent.colours < needs.colours || lent.depths < needs.depths {
        return Err(Refusal::Memory(Lent::Picture));
    }
    if lent.work < needs.work {
        return Err(Refusal::Memory(Lent::Work));
    }
    if lent.shown < needs.shown {
        return Err(Refusal::Memory(Lent::Shown));
    }
    Ok(task)
}

// The same, and says what the file has.
pub fn admit(file: &[u8], lent: Lengths) -> Result<Job, Refusal>
    ensures { Admitted file.now lent result }
{
    let task = accept(file, lent)?;
    Ok(Job {
        summary: task.file.summary,
        shows: task.shows,
    })
}
