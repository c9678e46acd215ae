// Pictures as text.
#![tactic(auto)]

ghost use Rattle.std.specs.Prelude.{◌≡◌, ◌*◌, ◌/◌, ◌%◌, ◌<◌, [], ◌∷◌, ◌++◌, OnOk};
ghost use Rattle.output.specs.Text.{digit, gap, row_text, rows_text};

use meaning::state::Size;
use std::alloc::AllocError;

// A hexadecimal digit.
// Kept: by hand, on bytes. `char::from_digit` gives a char in an Option, to be unwrapped and cast back to this byte, and `{:02x}` wants a String, which would ask more of callers.
fn hex_digit(n: u8) -> u8
    requires { n < 16 }
    ensures { result ≡ digit n }
{
    if n < 10 { b'0' + n } else { b'a' + (n - 10) }
}

// The space before a dot, unless it is the first of its row; k bytes of the row lie before.
fn push_gap(out: &mut Vec<u8>, k: usize) -> Result<(), AllocError>
    ensures { OnOk result (out.new.items ≡ out.old.items ++ gap k) }
{
    if k % 3 == 0 && k != 0 {
        out.push(b' ')?;
    }
    Ok(())
}

fn push_byte(out: &mut Vec<u8>, byte: u8) -> Result<(), AllocError>
    ensures { OnOk result (out.new.items ≡ out.old.items ++ (digit (byte / 16) ∷ digit (byte % 16) ∷ [])) }
{
    out.push(hex_digit(byte / 16))?;
    out.push(hex_digit(byte % 16))?;
    Ok(())
}

// A row of dots, three bytes each, as a line of text behind what `out` has.
fn push_row(out: &mut Vec<u8>, row: &[u8]) -> Result<(), AllocError>
    ensures { OnOk result (out.new.items ≡ out.old.items ++ row_text 0 row.now) }
{
    for (k, byte) in row.iter().enumerate() {
        push_gap(out, k)?;
        push_byte(out, *byte)?;
    }
    out.push(b'\n')?;
    Ok(())
}

// The rows of a picture, from the top, as lines of text behind what `out` has.
pub fn push_rows(out: &mut Vec<u8>, size: Size, dots: &[u8]) -> Result<(), AllocError>
    ensures { OnOk result (out.new.items ≡ out.old.items ++ rows_text size.height (3 * size.width) dots.now) }
{
    let stride = 3 * usize::from(size.width);
    // Kept: a picture has all its rows, also where the dots end early or a row has none; by chunks there would be fewer.
    let mut rest = dots;
    for _ in 0..size.height {
        let (row, behind) = rest.split_at(stride.min(rest.len()));
        push_row(out, row)?;
        rest = behind;
    }
    Ok(())
}
