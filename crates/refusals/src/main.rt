// Judges small files and lengths of lent memory at the edges of every rule, and prints what is said of each.
#![tactic(auto)]

use codec::judge::judge;
use codec::refusal::Refusal;
use reference::job::admit;
use reference::lengths::Lengths;

// 4 by 2 dots; a texture of 2 by 1; a pen, a clear and a show.
const FILE: [u8; 41] = [
    68, 79, 84, 83, 4, 0, 2, 0, 1, 1, 0, 255, 0, 0, 255, 0, 0, 255, 255, 3, 0, 1, 2, 1, 1, 1, 1, 0,
    0, 0, 4, 0, 2, 0, 3, 255, 128, 0, 232, 3, 5,
];

// What is done to the file: bytes that are given other values.
const CHANGES: [(&str, &[(usize, u8)]); 36] = [
    ("another first letter", &[(0, 69)]),
    ("another last letter", &[(3, 82)]),
    ("a width of 0", &[(4, 0)]),
    ("a width of 1024", &[(4, 0), (5, 4)]),
    ("a width of 1025", &[(4, 1), (5, 4)]),
    ("a height of 0", &[(6, 0)]),
    ("a height of 1024", &[(6, 0), (7, 4)]),
    ("a height of 1025", &[(6, 1), (7, 4)]),
    ("65 textures", &[(8, 65)]),
    ("a texture 2^9 wide", &[(9, 9)]),
    ("a texture 2^9 high", &[(10, 9)]),
    ("a texture 2^8 wide, whose dots are not there", &[(9, 8)]),
    ("a texture's dot of another colour", &[(11, 0)]),
    ("4 commands, of which 3 are there", &[(19, 4)]),
    ("2 commands, behind which is a third", &[(19, 2)]),
    ("no commands, behind which are three", &[(19, 0)]),
    ("a command of kind 0", &[(21, 0)]),
    ("a command of kind 2", &[(21, 2)]),
    ("a command of kind 4", &[(21, 4)]),
    ("a command of kind 6", &[(21, 6)]),
    ("test 4", &[(22, 4)]),
    ("test 5", &[(22, 5)]),
    ("keeps 2", &[(23, 2)]),
    ("mix 2", &[(24, 2)]),
    ("mix 3", &[(24, 3)]),
    ("no texture", &[(25, 0)]),
    ("texture 2 of 1", &[(25, 2)]),
    ("a frame from left 4 to right 4", &[(26, 4)]),
    ("a frame from left 5 to right 4", &[(26, 5)]),
    ("a frame from top 2 to bottom 2", &[(28, 2)]),
    ("a frame from top 3 to bottom 2", &[(28, 3)]),
    ("a frame to right 5 of 4", &[(30, 5)]),
    ("a frame to right 260 of 4", &[(31, 1)]),
    ("a frame to bottom 3 of 2", &[(32, 3)]),
    ("another depth", &[(38, 255)]),
    ("a last command of kind 7", &[(40, 7)]),
];

// The lengths of memory that 8 dots and one show need.
const ENOUGH: Lengths = Lengths {
    colours: 24,
    depths: 8,
    work: 32,
    shown: 24,
};

const LENT: [(&str, Lengths); 8] = [
    ("just enough memory", ENOUGH),
    (
        "more than enough memory",
        Lengths {
            colours: 99,
            depths: 99,
            work: 99,
            shown: 99,
        },
    ),
    (
        "a colour's byte short",
        Lengths {
            colours: 23,
            ..ENOUGH
        },
    ),
    (
        "a depth short",
        Lengths {
            depths: 7,
            ..ENOUGH
        },
    ),
    ("a word of work short", Lengths { work: 31, ..ENOUGH }),
    (
        "a byte of what is shown short",
        Lengths {
            shown: 23,
            ..ENOUGH
        },
    ),
    (
        "everything but the colours short",
        Lengths {
            depths: 0,
            work: 0,
            shown: 0,
            ..ENOUGH
        },
    ),
    (
        "work and shown short",
        Lengths {
            work: 0,
            shown: 0,
            ..ENOUGH
        },
    ),
];

fn print_verdict<T: Drop>(
    rt: &HostRuntime,
    what: &str,
    verdict: Result<T, Refusal>,
) -> anyhow::Result<()> {
    match verdict {
        Ok(_) => println!(rt; "{what}: taken")?,
        Err(refusal) => println!(rt; "{what}: {refusal}")?,
    }
    Ok(())
}

// The file cut off before each of its bytes.
fn print_cuts(rt: &HostRuntime) -> anyhow::Result<()> {
    for n in 0..FILE.len() {
        let what = format!(in rt.alloc(); "{n} bytes")?;
        print_verdict(rt, what.as_str(), judge(&FILE[..n]))?;
    }
    Ok(())
}

fn changed(bytes: &[(usize, u8)]) -> [u8; 41] {
    let mut file = FILE;
    for (at, value) in bytes {
        if let Some(byte) = file.get_mut(*at) {
            *byte = *value;
        }
    }
    file
}

fn main(rt: HostRuntime) -> anyhow::Result<()> {
    print_verdict(&rt, "the file", judge(&FILE))?;
    print_cuts(&rt)?;
    let mut longer = FILE.to_vec(rt.alloc())?;
    longer.push(5)?;
    print_verdict(&rt, "a byte too many", judge(&longer))?;
    for (what, bytes) in CHANGES {
        print_verdict(&rt, what, judge(&changed(bytes)))?;
    }
    for (what, lent) in LENT {
        print_verdict(&rt, what, admit(&FILE, lent))?;
    }
    Ok(())
}
