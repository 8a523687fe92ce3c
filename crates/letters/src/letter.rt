// Letters.
use crate::shared::SharedPlaces;
use cavity_rank::Operation;
use ma_cells::{Ascending, Batch, Label, Mark};
use ma_geom::Place;

/// What a part tells the homes of its corners: how many tetrahedra it has, 4294967295 where there
/// are more, its corners with this home, and marks.
#[derive(Debug, Drop)]
pub struct Post {
    pub count: u32,
    pub places: Ascending<Place>,
    pub marks: Ascending<Mark>,
}

/// What a home tells the parts that posted to it.
#[derive(Debug, Drop)]
pub struct Reply {
    pub shared: SharedPlaces,
    pub marks: Ascending<Mark>,
}

/// What a letter carries, by its kind.
#[derive(Debug, Drop)]
pub enum Body {
    Post(Post),
    Reply(Reply),
    Ghosts(Batch),
    Propose(Ascending<Operation>),
    Vote(Ascending<Operation>),
    Order(Ascending<Operation>),
    Deliver(Batch),
}

/// A letter from one part to another, of a round and a phase of it.
#[derive(Debug, Drop)]
pub struct Letter {
    pub round: u32,
    pub phase: u32,
    pub sender: Label,
    pub target: Label,
    pub body: Body,
}

/// What a letter is, told by its first byte.
#[derive(Clone, Copy, Debug, PartialEq, Eq)]
pub enum LetterKind {
    Post,
    Reply,
    Ghosts,
    Propose,
    Vote,
    Order,
    Deliver,
}
