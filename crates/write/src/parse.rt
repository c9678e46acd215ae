// A text, line by line.
use crate::draft::{Draft, NO_SIZE, read_size};
use crate::line::Line;
use crate::problem::Problem;
use std::alloc::Global;

pub(crate) fn parse(heap: Global, text: &str) -> Result<Draft, Problem> {
    // The number of the last line. Kept: noted where lines get their numbers; noted in the loop below it makes blank lines take twice as long.
    let mut last = 0usize;
    let lines = text
        .lines()
        .enumerate()
        .map(|(k, text)| {
            last = k + 1;
            Line::new(last, text)
        })
        .filter(|line| !line.is_empty());
    // Kept: one loop, where the first line could be taken before it: a line that is handed on by itself takes twice as long.
    let mut begun = None;
    for mut line in lines {
        match &mut begun {
            None => begun = Some(Draft::new(heap, read_size(&mut line)?)),
            Some(draft) => draft.read(&mut line)?,
        }
    }
    let end = Line::new(last.saturating_add(1), "");
    let Some(draft) = begun else {
        return Err(end.wrong(NO_SIZE));
    };
    draft.end(&end)?;
    Ok(draft)
}
