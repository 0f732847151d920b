// The groups of vertices at a level of contraction, each with the arc that it has chosen.
use instance::Vertex;
use instance::limits::VERTICES;

#[derive(Clone, Copy)]
pub struct Groups<'a> {
    pub label: &'a [u8; VERTICES], // the group of each vertex
    pub tails: &'a [u8; VERTICES], // the tail of the arc that each group has chosen
    pub heads: &'a [u8; VERTICES], // and its head
    pub n: usize, // the number of vertices
    pub root: Vertex, // one of them, whose group chooses none
}
