// Runs the figures worked by hand (METHOD 11) through the functions that the book calls, and through the book.
// It writes one line for each; the lines to compare with, in the file stdout, are worked from the paper.
#![tactic(auto)]

mod cases;
mod print;
mod terms;
mod through_book;

fn main(rt: HostRuntime) {
    terms::all(&rt);
    cases::all(&rt);
    through_book::all(&rt);
}
