// What the commands of a file ask of lent memory.
ghost use Rattle.std.specs.Prelude.{◌≡◌, ◌*◌, ◌≤◌};
ghost use Rattle.codec.specs.Shows.{shows, triangle_count};
ghost use Rattle.codec.specs.Taken.{commands_of};

use crate::taken::TakenFile;
use meaning::command::Command;

#[derive(Clone, Copy, Debug, PartialEq, Eq)]
pub struct Counts {
    pub shows: usize,
    pub triangles: usize,
}

impl TakenFile<'_> {
    // How many pictures its commands show, and how many triangles they have.
    pub fn counts(self) -> Counts
        ensures shows { result.shows ≡ shows (commands_of self.entry) }
        ensures triangles { result.triangles ≡ triangle_count (commands_of self.entry) }
        ensures few { (result.shows ≤ 65535) × (result.triangles ≤ 65535 * 65535) }
    {
        let mut counts = Counts {
            shows: 0,
            triangles: 0,
        };
        for command in self.commands() {
            match command {
                Command::Show => counts.shows += 1,
                Command::Triangles(many) => counts.triangles += usize::from(many),
                Command::Pen(_) | Command::Look(_) | Command::Clear { .. } => {}
            }
        }
        counts
    }
}
