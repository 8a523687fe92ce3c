// What a home got, and what it replies.
ghost use Rattle.std.specs.Prelude.{◌≡◌, ◌<◌, ◌≤◌, ◌++◌, ◌∷◌, [], filter, length, nat_le, if◌then◌else◌, IfOk, OnErr, OnOk};
ghost use Rattle.std.specs.List.{AllByRecursion};
ghost use Rattle.ma_geom.specs.Coordinates.{place_cmp};
ghost use Rattle.ma_cells.specs.Ascending.{ascending_of, has};
ghost use Rattle.ma_cells.specs.Cells.{mark_cmp};
ghost use Rattle.directory.specs.Posting.{least_corner, marks_posted, posters, reply_of, shared_of};
ghost use Rattle.directory.specs.steps.Replying.{reply_on};
ghost use Rattle.part_phases.specs.Inboxes.{put_in};

use crate::cells::{least_corner, push_if};
use letters::{Post, Reply, Shared, SharedPlaces};
use ma_cells::{Ascending, Label, Mark};
use ma_geom::{Memory, Place};
use std::alloc::Global;
use std::collections::BTreeMap;
use std::marker::Model;

/// The posts that a home got, the latest of each part.
#[derive(Debug, Drop)]
pub struct Directory {
    posts: BTreeMap<Label, Post>,
}

impl Model for Directory {
    ghost use Rattle.std.specs.Prelude.{◌<◌};
    ghost use Rattle.std.specs.BTreeMap.{IsOrdered};
    ghost use Rattle.std.specs.List.{AllByRecursion};
    ghost use Rattle.std.specs.Ordering.{nat_cmp};
    ghost use Rattle.part_phases.specs.Inboxes.{Inbox};
    ghost use Rattle.letters.specs.declared.letter.Post.{Post};

    ghost Value = { Inbox Post };

    ghost view = { λ d. d.posts.entries };

    ghost invariant = { λ d. IsOrdered nat_cmp d.posts × AllByRecursion (λ entry. entry.0 < 64) d.posts.entries };
}

/// A post in lists of its own.
fn copy_of(alloc: Global, post: &Post) -> Result<Post, Memory>
    ensures { IfOk result (λ copy. copy ≡ post.now) }
{
    let places = Vec::from_slice(alloc, post.places.as_slice())?;
    let marks = Vec::from_slice(alloc, post.marks.as_slice())?;
    Ok(Post {
        count: post.count,
        places: Ascending::from_vec(places),
        marks: Ascending::from_vec(marks),
    })
}

/// The parts that posted a place, found by one search in each post.
fn posters(
    alloc: Global,
    posts: &BTreeMap<Label, Post>,
    place: Place,
) -> Result<Ascending<Label>, Memory>
    requires { AllByRecursion (λ entry. entry.0 < 64) posts.now.entries }
    ensures value { IfOk result (λ senders. senders ≡ posters place posts.now.entries) }
    ensures few { IfOk result (λ senders. length senders ≤ 64) }
{
    let mut senders = Vec::new(alloc);
    for (sender, post) in posts {
        push_if(&mut senders, *sender, post.places.contains(&place))?;
    }
    Ok(Ascending::from_vec(senders))
}

/// Appends a place with those that posted it, if they are two or more.
fn push_shared(
    into: &mut Vec<Shared>,
    place: Place,
    senders: Ascending<Label>,
) -> Result<(), Memory>
    requires { length senders ≤ 64 }
    ensures { OnOk result (into.new.items ≡ into.old.items ++ (if nat_le 2 (length senders) then record { place = place; parts = senders } ∷ [] else [])) }
{
    if let Some(shared) = Shared::new(place, senders) {
        into.push(shared)?;
    }
    Ok(())
}

/// Those of the places that two or more parts posted.
fn shared_places(
    alloc: Global,
    posts: &BTreeMap<Label, Post>,
    places: &Ascending<Place>,
) -> Result<SharedPlaces, Memory>
    requires { AllByRecursion (λ entry. entry.0 < 64) posts.now.entries }
    ensures { IfOk result (λ shared. shared ≡ shared_of (λ x. posters x posts.now.entries) places.now) }
{
    let mut shared = Vec::new(alloc);
    for place in places.as_slice() {
        let senders = posters(alloc, posts, *place)?;
        push_shared(&mut shared, *place, senders)?;
    }
    Ok(SharedPlaces::from_vec(shared))
}

/// Whether the least corner of a mark is one of the places.
fn is_at(mark: &Mark, places: &Ascending<Place>) -> bool
    ensures { result ≡ has place_cmp (least_corner mark.now.cell) places.now }
{
    places.contains(&least_corner(mark.cell()))
}

/// Appends those of the marks whose least corner is one of the places.
fn push_marks(into: &mut Vec<Mark>, marks: &[Mark], places: &Ascending<Place>) -> Result<(), Memory>
    ensures { OnOk result (into.new.items ≡ into.old.items ++ filter (λ mark. has place_cmp (least_corner mark.cell) places.now) marks.now) }
{
    for mark in marks {
        push_if(into, *mark, is_at(mark, places))?;
    }
    Ok(())
}

fn mark_set(marks: Vec<Mark>) -> Ascending<Mark>
    ensures { result ≡ ascending_of mark_cmp marks.items }
{
    Ascending::gather(marks)
}

/// All marks that were posted and whose least corner is one of the places.
fn marks_at(
    alloc: Global,
    posts: &BTreeMap<Label, Post>,
    places: &Ascending<Place>,
) -> Result<Ascending<Mark>, Memory>
    ensures { IfOk result (λ marks. marks ≡ filter (λ mark. has place_cmp (least_corner mark.cell) places.now) (marks_posted posts.now.entries)) }
{
    let mut marks = Vec::new(alloc);
    for (_, post) in posts {
        push_marks(&mut marks, post.marks.as_slice(), places)?;
    }
    Ok(mark_set(marks))
}

/// The reply to a part that posted these places.
fn reply_on(
    alloc: Global,
    posts: &BTreeMap<Label, Post>,
    places: &Ascending<Place>,
) -> Result<Reply, Memory>
    requires { AllByRecursion (λ entry. entry.0 < 64) posts.now.entries }
    ensures { IfOk result (λ reply. reply ≡ reply_on places.now posts.now.entries) }
{
    let shared = shared_places(alloc, posts, places)?;
    let marks = marks_at(alloc, posts, places)?;
    Ok(Reply { shared, marks })
}

impl Directory {
    /// A directory without a post, which takes no memory.
    pub fn new(alloc: Global) -> Directory
        ensures { result ≡ [] }
    {
        Directory {
            posts: BTreeMap::new(alloc),
        }
    }

    /// Takes what a part posts, in place of what it posted before.
    pub fn take_post(&mut self, alloc: Global, sender: Label, post: &Post) -> Result<(), Memory>
        requires { sender < 64 }
        ensures ok { OnOk result (self.new ≡ put_in sender post.now self.old) }
        ensures err { OnErr result (self.new ≡ self.old) }
    {
        let copy = copy_of(alloc, post)?;
        match self.posts.insert(sender, copy) {
            Ok(_) => Ok(()),
            Err(_) => Err(Memory),
        }
    }

    /// What the home replies to a part: each place that this part and another posted, with all that
    /// posted it, and the marks whose least corner it posted.
    pub fn reply(&self, alloc: Global, target: Label) -> Result<Reply, Memory>
        ensures { IfOk result (λ reply. reply ≡ reply_of self.now target) }
    {
        match self.posts.get(&target) {
            Some(post) => reply_on(alloc, &self.posts, &post.places),
            None => reply_on(alloc, &self.posts, &Ascending::new(alloc)),
        }
    }
}
