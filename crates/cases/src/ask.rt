// What a line writes, with each part in braces replaced by what it asks. A pixel that is asked for
// is read by the public call; those that are counted are read below it, by `screen`'s function.
use std::io;
use std::io::{Stdout, Write};
use tell::Seen;
use trial::line::{Op, until};

fn value(out: &mut Stdout, asked: &[u8], seen: &Seen) -> io::Result<()> {
    match Op::within(asked) {
        Some(op) => {
            let [x, y, ..] = op.numbers;
            let read = vpu::pixel(seen.plane, x as usize, y as usize);
            tell::value(out, op, seen, read)
        }
        None => tell::answer(out, seen),
    }
}

pub fn write(out: &mut Stdout, text: &[u8], seen: &Seen) -> io::Result<()> {
    let mut left = text;
    while !left.is_empty() {
        let (plain, braces) = until(left, b'{');
        let (asked, after) = until(braces, b'}');
        out.write_all(plain)?;
        if !asked.is_empty() {
            value(out, asked, seen)?;
        }
        // What is after the brace.
        left = after.get(1..).unwrap_or(b"");
    }
    if !text.is_empty() {
        out.write_all(b"\n")?;
    }
    Ok(())
}
