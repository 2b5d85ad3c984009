// What the program prints, from fixed byte strings.
use crate::tally::Account;
use std::io;

// A name and a number, and the line's end.
fn line(rt: &impl Print, name: &[u8], n: u64) -> io::Result<()> {
    rt.write_all(name)?;
    println!(rt; "{n}")
}

// "the PID, four upper-case hexadecimal digits"
fn pid_line(rt: &impl Print, pid: u16) -> io::Result<()> {
    rt.write_all(b"PID ")?;
    println!(rt; "{pid:04X}")
}

// How the packets fared.
fn packet_lines(rt: &impl Print, a: Account) -> io::Result<()> {
    line(rt, b"taken ", a.taken)?;
    line(rt, b"repeated ", a.repeated)?;
    line(rt, b"refused ", a.refused)
}

// What became of the payload bytes of the packets taken.
fn byte_lines(rt: &impl Print, a: Account) -> io::Result<()> {
    let rec = a.rec;
    line(rt, b"pointer ", rec.pointer as u64)?;
    line(rt, b"accepted ", rec.accepted as u64)?;
    line(rt, b"rejected ", rec.rejected as u64)?;
    line(rt, b"broken ", rec.broken as u64)?;
    line(rt, b"filler ", rec.filler as u64)?;
    line(rt, b"skipped ", rec.skipped as u64)?;
    line(rt, b"in hand ", rec.in_hand as u64)
}

pub fn print(rt: &impl Print, a: Account) -> io::Result<()> {
    pid_line(rt, a.rec.pid)?;
    packet_lines(rt, a)?;
    byte_lines(rt, a)?;
    line(rt, b"sections ", a.sections)
}

pub fn no_packets(rt: &impl Print) -> io::Result<()> {
    rt.write_all(b"no packets\n")
}
