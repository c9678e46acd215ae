// The commands of a file that was taken, read again one at a time.
ghost use Rattle.codec.specs.Walk.{Coming};

use crate::reader::Reader;
use crate::summary::Summary;
use crate::taken::TakenFile;
use meaning::command::Command;

// Those that are left, and a reader before the first of them.
#[derive(Drop)]
pub struct Commands<'a> {
    reader: Reader<'a>,
    summary: Summary,
    left: u16,
    ghost coming: { Coming summary left reader },
}

impl Iterator for Commands<'_> {
    ghost use Rattle.std.specs.Iterator.{item_count};
    ghost use Rattle.codec.specs.Taken.{to_come, GivesNext};

    type Item = Command;

    ghost next_gives = { GivesNext };

    ghost remaining = { item_count to_come };

    fn next(&mut self) -> Option<Command> {
        if self.left == 0 {
            return None;
        }
        let summary = self.summary;
        let command = self.reader.command(summary.size, summary.textures).unwrap();
        self.left -= 1;
        Some(command)
    }
}

impl<'a> TakenFile<'a> {
    ghost use Rattle.std.specs.Prelude.{◌≡◌, ◌≤◌, length};
    ghost use Rattle.codec.specs.Taken.{commands_of, to_come};

    // Its commands from the first on.
    pub fn commands(self) -> Commands<'a>
        ensures all { to_come result ≡ commands_of self.entry }
        ensures few { length (to_come result) ≤ 65535 }
    {
        Commands {
            reader: Reader {
                bytes: self.bytes,
                at: self.summary.start,
            },
            summary: self.summary,
            left: self.summary.commands,
        }
    }
}
