// Job records (METHOD 3): read from the front of a job, and written, most significant bit first,
// for any caller: no call here requires anything. What each kind says is in `kinds`; refusals and bytes are done here, once for all kinds.
#![tactic(auto)]

ghost use Rattle.std.specs.Prelude.{◌≡◌, ◌++◌, ◌≤◌, ◌<◌, length, drop};
ghost use Rattle.layout.specs.Layout.{size, fields, packed, Within};
ghost use Rattle.request.specs.Kinds.{layout_of};
ghost use Rattle.request.specs.Inner.{first_of};
ghost use Rattle.kinds.specs.Kind.{number_of, kind_read, front_of, reading_by};
ghost use Rattle.request.specs.Record.{extent_of, read_of, write_of};

use answer::Refusal;
use kinds::Kind;
use request::{Reading, Request, Shape, Written};
use road::Source;

// The kind that a job begins with.
fn kind_of(job: &[u8]) -> Result<Kind, Refusal>
    ensures { result ≡ kind_read job.now }
{
    if job.is_empty() {
        Err(Refusal::CutShort)
    } else {
        let number = layout::field(job, 0, usize::from(kinds::KIND_BITS));
        Kind::of(number).ok_or(Refusal::UnknownKind)
    }
}

// The kind of the record at the front of a job, where its bytes are all there.
#[tactic(auto, using(crate::proofs::Laws::front_unread, crate::proofs::Laws::front_cut, crate::proofs::Laws::front_there))]
fn front(job: &[u8]) -> Result<Kind, Refusal>
    ensures { result ≡ front_of job.now }
{
    let kind = kind_of(job)?;
    if job.len() < kinds::shape_of(kind).bytes {
        return Err(Refusal::CutShort);
    }
    Ok(kind)
}

// How many bytes the record at the front takes by its kind; 0 where it is refused 2 or 3.
// A number and no option: `stops` of service/specs/Service.antt says when it is 0, and that a job cannot go on then.
#[tactic(auto, using(crate::proofs::Laws::front_extent, crate::proofs::Laws::refused_extent))]
pub fn extent(job: &[u8]) -> usize
    ensures { result ≡ extent_of job.now }
{
    match front(job) {
        Ok(kind) => kinds::shape_of(kind).bytes,
        Err(_) => 0,
    }
}

// The fields of the record at the front of a job, as many as its kind has.
#[tactic(auto, using(request::proofs::Rows::row_sized))]
fn values(job: &[u8], kind: Kind, v: &mut [u64])
    requires { (size (layout_of (number_of kind)) ≤ length job.now) × (length v.old ≡ length (layout_of (number_of kind))) }
    ensures { v.new ≡ fields (layout_of (number_of kind)) job.now }
{
    layout::take_fields(job, kinds::layout_of(kind), v);
}

// What the record at the front of a job asks for, and the source beside it.
#[tactic(auto, using(crate::proofs::Laws::front_refused, layout::proofs::Laws::fields_within, request::proofs::Rows::row_count, request::proofs::Rows::row_fields))]
fn hear(job: &[u8]) -> Result<(Request, Source), Refusal>
    ensures { reading_by result ≡ read_of job.now }
{
    let kind = front(job)?;
    let Shape { count, fields, .. } = kinds::shape_of(kind);
    let mut room = [0u64; 25];
    let v = &mut room[..count];
    values(job, kind, v);
    // A kind with no bits left over has nothing after its fields.
    let left = 0 < v.get(fields + 1).copied().unwrap_or(0);
    if left {
        return Err(Refusal::Leftover);
    }
    let call = kinds::call(kind, v);
    let source = kinds::source(kind, v);
    kinds::verdict(call, source)?;
    Ok((call, source))
}

// Reads the record at the front of a job.
pub fn read(job: &[u8]) -> Reading
    ensures { result ≡ read_of job.now }
{
    match hear(job) {
        Ok((call, source)) => Reading {
            told: Ok(call),
            source,
        },
        Err(why) => Reading {
            told: Err(why),
            source: kinds::blank(),
        },
    }
}

// Writes fields of a kind at the front of out; the bytes past the record stay.
#[tactic(auto, using(request::proofs::Rows::row_sized, layout::proofs::Packing::within_length))]
fn put(out: &mut [u8], kind: Kind, v: &[u64])
    requires { (size (layout_of (number_of kind)) ≤ length out.old) × Within (layout_of (number_of kind)) (first_of (number_of kind) v.now) }
    ensures { out.new ≡ packed (layout_of (number_of kind)) (first_of (number_of kind) v.now) ++ drop (size (layout_of (number_of kind))) out.old }
{
    let widths = kinds::layout_of(kind);
    layout::put_fields(out, widths, &v[..widths.len()]);
}

// Writes the record of a call at the front of out. A refusal writes nothing.
#[tactic(auto, using(request::proofs::Laws::write_refused, request::proofs::Laws::write_short, request::proofs::Calls::written_within))]
pub fn write(call: Request, source: Source, out: &mut [u8]) -> Written
    ensures { (result, out.new) ≡ write_of call source out.old }
{
    kinds::verdict(call, source)?;
    let kind = kinds::kind_of(call, source);
    let bytes = kinds::shape_of(kind).bytes;
    if out.len() < bytes {
        return Err(Refusal::CutShort);
    }
    let v = kinds::fields_of(call, source);
    put(out, kind, &v);
    Ok(())
}
