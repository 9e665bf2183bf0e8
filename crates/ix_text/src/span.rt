/// A piece of a source text, by places that count its bytes from 0: from the place `from` up to the place `to`, which is not in it.
#[derive(Clone, Copy, Debug, PartialEq, Eq, Hash)]
pub struct Span {
    pub from: u32,
    pub to: u32,
}
