// What a part has got in one phase.
ghost use Rattle.std.specs.Prelude.{◌≡◌, ◌<◌, ◌≤◌, [], length, OnOk};
ghost use Rattle.std.specs.List.{AllByRecursion};
ghost use Rattle.std.specs.List.Sorted.{IsStrictlySortedBy};
ghost use Rattle.std.specs.Map.{keys_of};
ghost use Rattle.std.specs.Ordering.{nat_cmp};
ghost use Rattle.part_phases.specs.Inboxes.{lacks, missing, put_in};

use letters::Body;
use ma_cells::Label;
use ma_geom::Memory;
use std::alloc::Global;
use std::collections::BTreeMap;
use std::collections::btree_map::{IntoIter, Iter};
use std::marker::Model;

/// Bodies of letters, each with its sender, who is below 64, ascending by sender.
#[derive(Debug, Drop)]
pub(crate) struct Inbox {
    bodies: BTreeMap<Label, Body>,
}

impl Model for Inbox {
    ghost use Rattle.std.specs.Prelude.{ℕ, List, ◌<◌};
    ghost use Rattle.std.specs.BTreeMap.{IsOrdered};
    ghost use Rattle.std.specs.List.{AllByRecursion};
    ghost use Rattle.std.specs.Ordering.{nat_cmp};
    ghost use Rattle.letters.specs.declared.letter.Body.{Body};

    ghost Value = { List (ℕ × Body) };

    ghost view = { λ i. i.bodies.entries };

    ghost invariant = { λ i. IsOrdered nat_cmp i.bodies × AllByRecursion (λ entry. entry.0 < 64) i.bodies.entries };
}

impl Inbox {
    /// An inbox without a body, which takes no memory.
    pub(crate) fn new(alloc: Global) -> Inbox
        ensures { result ≡ [] }
    {
        Inbox {
            bodies: BTreeMap::new(alloc),
        }
    }

    pub(crate) fn lacks(&self, sender: Label) -> bool
        ensures { result ≡ lacks self.now sender }
    {
        !self.bodies.contains_key(&sender)
    }

    pub(crate) fn put_in(&mut self, sender: Label, body: Body) -> Result<(), Memory>
        requires { sender < 64 }
        ensures { OnOk result (self.new ≡ put_in sender body self.old) }
    {
        self.bodies.insert(sender, body)?;
        Ok(())
    }

    /// From how many others nothing has come.
    pub(crate) fn missing(&self, parts: u8, me: Label) -> u8
        ensures count { result ≡ missing parts me self.now }
        ensures few { result ≤ parts }
    {
        let mut count = 0;
        for n in 0..parts {
            if n != me && self.lacks(n) {
                count += 1;
            }
        }
        count
    }

    /// The bodies with their senders.
    pub(crate) fn iter(&self) -> Iter<'_, Label, Body>
        ensures rest { result ≡ self.now }
        ensures rises { IsStrictlySortedBy nat_cmp (keys_of self.now) }
        ensures below { AllByRecursion (λ entry. entry.0 < 64) self.now }
        ensures few { length self.now ≤ 64 }
    {
        self.bodies.iter()
    }

    /// The same, out of the inbox.
    pub(crate) fn into_iter(self) -> IntoIter<Label, Body>
        ensures { result ≡ self }
    {
        self.bodies.into_iter()
    }
}
