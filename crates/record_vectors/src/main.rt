// Byte vectors of job records, read and written again, and held to the file stdout.
// A line is the length of the part, and then the output of 36 bytes FF after writing, or the number and the place of a refusal.
#![tactic(auto)]

use answer::Refusal;
use record::Request;
use road::Source;

fn print(rt: &HostRuntime, text: &[u8]) {
    let _ = rt.write_all(text);
}

fn print_bytes(rt: &HostRuntime, bytes: &[u8]) {
    for b in bytes {
        let _ = print!(rt; "{b:02x}");
    }
}

// In four parts, and a length in two: an output that fails for a while loses what it lost before.
fn print_refusal(rt: &HostRuntime, why: Refusal) {
    print(rt, b"refused ");
    let _ = rt.print(answer::number(why));
    print(rt, b" at ");
    let _ = rt.print(answer::place(why));
}

// Writes a call, and prints why not, if it is refused, and what the output holds then.
fn write(rt: &HostRuntime, call: Request, source: Source, out: &mut [u8]) {
    if let Err(why) = record::write(call, source, out) {
        print_refusal(rt, why);
        print(rt, b" ");
    }
    print_bytes(rt, out);
    print(rt, b"\n");
}

// Reads a job, prints the length of the part, and writes the record again.
fn again(rt: &HostRuntime, job: &[u8]) {
    let length = record::part(job).len();
    let _ = rt.print(length);
    print(rt, b" ");
    let reading = record::read(job);
    match reading.told {
        Ok(call) => {
            let mut out = [255u8; 36];
            write(rt, call, reading.source, &mut out);
        }
        Err(why) => {
            print_refusal(rt, why);
            print(rt, b"\n");
        }
    }
}

fn accepted(rt: &HostRuntime) {
    // receiver 5 of METHOD 3
    again(rt, b"\x11\x40\x61\xa8\x00\x61\xa8\x32\x00");
    // ask 5 of METHOD 3
    again(rt, b"\x51\x40");
    // withdraw receiver 63
    again(rt, b"\x2f\xc0");
    // the road of the 25 m case in slot 0
    again(
        rt,
        b"\x30\x00\x0c\x83\x20\x0c\x35\x00\x0f\xa0\xc8\xa0\x20\x00\x00\x00\x00\x03\xd0\x90\x00\x00\xf4\x24\x00\x00\x06\x1a\x80\x00",
    );
    // withdraw source 511, and a byte of the next record
    again(rt, b"\x4f\xf8\x51");
    // the same road by its ends, in slot 2
    again(
        rt,
        b"\x70\x10\x0c\x83\x20\x0c\x25\x60\x0c\x83\x20\x0c\x44\xa1\x91\x40\x40\x00\x00\x00\x00\x07\xa1\x20\x00\x01\xe8\x48\x00\x00\x0c\x35\x00\x00",
    );
    // the same road as a municipal street with 1500 vehicles a day, in slot 1 of METHOD 3
    again(
        rt,
        b"\x60\x08\x0c\x83\x20\x0c\x35\x00\x0f\xa0\xc8\xa0\x20\x00\x00\x00\x00\x30\x17\x70",
    );
    // wall 5, 4 m high, 200 m along x 1050 m
    again(
        rt,
        b"\x81\x40\x66\x8a\x00\x57\xe4\x00\x66\x8a\x00\x6b\x6c\x0c\x80",
    );
    // wall 63, as high as can be, from the last point of the plan to the first
    again(
        rt,
        b"\x8f\xff\xff\xff\xff\xff\xff\xc0\x00\x00\x00\x00\x00\x3e\x80",
    );
    // withdraw wall 5
    again(rt, b"\x91\x40");
}

// Refusals 2 to 4.
fn refused_whole(rt: &HostRuntime) {
    // refusal 2: no byte; a byte short
    again(rt, b"");
    again(
        rt,
        b"\x30\x00\x0c\x83\x20\x0c\x35\x00\x0f\xa0\xc8\xa0\x20\x00\x00\x00\x00\x03\xd0\x90\x00\x00\xf4\x24\x00\x00\x06\x1a\x80",
    );
    // refusal 3
    again(rt, b"\xf0");
    // refusal 4
    again(rt, b"\x51\x41");
    again(
        rt,
        b"\x70\x10\x0c\x83\x20\x0c\x25\x60\x0c\x83\x20\x0c\x44\xa1\x91\x40\x40\x00\x00\x00\x00\x07\xa1\x20\x00\x01\xe8\x48\x00\x00\x0c\x35\x00\x01",
    );
    again(
        rt,
        b"\x81\x40\x66\x8a\x00\x57\xe4\x00\x66\x8a\x00\x6b\x6c\x0c\x81",
    );
    again(rt, b"\x91\x60");
}

// Refusal 5 of a source and of a receiver.
fn refused_fields(rt: &HostRuntime) {
    // refusal 5: both ends the same point; ends 1 km and 1 cm apart
    again(
        rt,
        b"\x70\x10\x0c\x83\x20\x0c\x25\x60\x0c\x83\x20\x0c\x25\x61\x91\x40\x40\x00\x00\x00\x00\x07\xa1\x20\x00\x01\xe8\x48\x00\x00\x0c\x35\x00\x00",
    );
    again(
        rt,
        b"\x70\x10\x00\x00\x00\x00\x00\x00\x0c\x35\x08\x00\x00\x01\x91\x40\x40\x00\x00\x00\x00\x07\xa1\x20\x00\x01\xe8\x48\x00\x00\x0c\x35\x00\x00",
    );
    // height 379; minus zero; a height of walls that are not there
    again(rt, b"\x11\x40\x61\xa8\x00\x61\xa8\x2f\x60");
    again(
        rt,
        b"\x30\x00\x0c\x83\x20\x0c\x35\x00\x0f\xa0\xc8\xa0\x30\x00\x00\x00\x00\x03\xd0\x90\x00\x00\xf4\x24\x00\x00\x06\x1a\x80\x00",
    );
    again(
        rt,
        b"\x30\x00\x0c\x83\x20\x0c\x35\x00\x0f\xa0\xc8\xa0\x20\x00\x00\x10\x00\x03\xd0\x90\x00\x00\xf4\x24\x00\x00\x06\x1a\x80\x00",
    );
    // and no vehicles a day
    again(
        rt,
        b"\x60\x08\x0c\x83\x20\x0c\x35\x00\x0f\xa0\xc8\xa0\x20\x00\x00\x00\x00\x30\x00\x00",
    );
}

// Refusal 5 of a wall, and 6.
fn refused_walls(rt: &HostRuntime) {
    // a wall whose ends are one point; of height 0; of 20 m and 1 cm
    again(
        rt,
        b"\x81\x40\x66\x8a\x00\x57\xe4\x00\x66\x8a\x00\x57\xe4\x0c\x80",
    );
    again(
        rt,
        b"\x81\x40\x66\x8a\x00\x57\xe4\x00\x66\x8a\x00\x6b\x6c\x00\x00",
    );
    again(
        rt,
        b"\x81\x40\x66\x8a\x00\x57\xe4\x00\x66\x8a\x00\x6b\x6c\x3e\x88",
    );
    // refusal 6: surface 5 at 60 km/h
    again(
        rt,
        b"\x30\x00\x0c\x83\x20\x0c\x35\x00\x0f\xa0\x78\xa0\xa0\x00\x00\x00\x00\x03\xd0\x90\x00\x00\xf4\x24\x00\x00\x06\x1a\x80\x00",
    );
}

fn main(rt: HostRuntime) {
    accepted(&rt);
    refused_whole(&rt);
    refused_fields(&rt);
    refused_walls(&rt);
    // the writer: slot 64 of a receiver and of a wall, and an output of one byte
    let source = record::read(b"").source;
    let mut short = [255u8; 1];
    write(&rt, Request::Ask(64), source, &mut short);
    write(&rt, Request::WithdrawWall(64), source, &mut short);
    write(&rt, Request::Ask(5), source, &mut short);
}
