// Judges sections, and searches each for a tag; walks over loops.
// Standard input has records: a kind, a byte, a two-byte length, and as many bytes.
// Kind 0: a section, and the byte is the tag sought. Standard output has a line for it.
// Kind 1: a loop, and the byte is the place from which the walk goes. Standard output has a line for each step.
#![tactic(auto)]

ghost use Rattle.loops.specs.Descriptors.{Steps};

use loops::walk::Stepped;
use std::io;
use std::io::{Read, Write};

fn word(out: &mut impl Write, bytes: &[u8]) -> io::Result<()> {
    out.write_all(bytes)
}

fn number(out: &mut impl Write, n: usize) -> io::Result<()> {
    write!(out, " {n}")
}

// The search judges the section, and refuses what the judge refuses.
fn tell(out: &mut impl Write, section: &[u8], tag: u8) -> io::Result<()> {
    match search::search(section, tag) {
        Ok(Some(hit)) => {
            word(out, b"accepted, found")?;
            number(out, hit.number)?;
            number(out, hit.start)?;
            number(out, hit.size)?;
        }
        Ok(None) => word(out, b"accepted, none")?,
        Err(refusal) => {
            let verdict = Err(refusal);
            word(out, b"refused")?;
            number(out, wire::wide(verdict::number(verdict)))?;
            number(out, verdict::place(verdict))?;
        }
    }
    word(out, b"\n")
}

// A walk over the loop that stands at the place `at`, and one step of it.
fn step_of_walk(bytes: &[u8], at: usize) -> Stepped
    ensures { Steps bytes.now at result.step result.at }
{
    let mut walk = loops::walk::over(bytes);
    walk.at = at;
    let step = loops::walk::next(&mut walk);
    Stepped { step, at: walk.at }
}

fn bytes_in_turn(out: &mut impl Write, bytes: &[u8]) -> io::Result<()> {
    for b in bytes {
        number(out, wire::wide(*b))?;
    }
    Ok(())
}

// What the walk gave, the place at which it then stands, and each byte of the descriptor handed out; false where there is none.
fn tell_step(out: &mut impl Write, bytes: &[u8], stepped: Stepped) -> io::Result<bool> {
    let step = stepped.step;
    match step {
        Ok(Some(_)) => {
            word(out, b"descriptor, then at")?;
            number(out, stepped.at)?;
            word(out, b":")?;
            bytes_in_turn(out, loops::walk::descriptor(bytes, step))?;
            word(out, b"\n")?;
            Ok(true)
        }
        Ok(None) => {
            word(out, b"end, at")?;
            number(out, stepped.at)?;
            word(out, b"\n")?;
            Ok(false)
        }
        Err(cut) => {
            word(out, b"refused 9")?;
            number(out, cut.0)?;
            word(out, b", at")?;
            number(out, stepped.at)?;
            word(out, b"\n")?;
            Ok(false)
        }
    }
}

fn tell_walk(out: &mut impl Write, bytes: &[u8], at: usize) -> io::Result<()> {
    let mut p = at;
    for _ in 0..65536u32 {
        let stepped = step_of_walk(bytes, p);
        if !tell_step(out, bytes, stepped)? {
            break;
        }
        p = stepped.at;
    }
    Ok(())
}

// As many bytes as buf has, or as the input still has.
fn read_full(input: &mut impl Read, buf: &mut [u8]) -> io::Result<usize> {
    let mut done: usize = 0;
    while done < buf.len() {
        let n = input.read(&mut buf[done..])?;
        if n == 0 {
            break;
        }
        done += n;
    }
    Ok(done)
}

// One record; false where no whole one is left.
fn turn(input: &mut impl Read, out: &mut impl Write, room: &mut [u8]) -> io::Result<bool> {
    let mut head = [0u8; 4];
    if read_full(input, &mut head)? < 4 {
        return Ok(false);
    }
    let size = wire::wide(head[2]) * 256 + wire::wide(head[3]);
    if room.len() < size {
        return Ok(false);
    }
    if read_full(input, &mut room[..size])? < size {
        return Ok(false);
    }
    let bytes = wire::parts::part(room, 0, size);
    if head[0] == 0 {
        tell(out, bytes, head[1])?;
    } else {
        tell_walk(out, bytes, wire::wide(head[1]))?;
    }
    Ok(true)
}

fn main(rt: HostRuntime) -> io::Result<()> {
    let mut input = rt.reader();
    let mut out = io::writer(&rt);
    let mut room = [0u8; 65536];
    for _ in 0..1000000000u32 {
        if !turn(&mut input, &mut out, &mut room)? {
            break;
        }
    }
    Ok(())
}
