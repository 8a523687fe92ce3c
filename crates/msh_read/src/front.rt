// The lines of a file one after another.
ghost use Rattle.std.specs.Prelude.{◌≡◌, ◌≤◌, IfOk, OnOk, true};
ghost use Rattle.std.specs.List.{All, list_all};
ghost use Rattle.std.specs.List.Sorted.{IsStrictlySortedBy};
ghost use Rattle.ma_cells.specs.Ascending.{ascending_of};
ghost use Rattle.msh_read.specs.steps.LineAnswers.{Gives, element_seen};
ghost use Rattle.msh_read.specs.steps.Front.{nothing_read};
ghost use Rattle.msh_read.specs.GroupNames.{has_dimension, name_cmp};
ghost use Rattle.msh_read.specs.Raw.{raw};
ghost use Rattle.msh_read.specs.steps.LinesRead.{end_of, is_outside, may_end, mesh_said};
ghost use Rattle.msh_read.specs.steps.LineByLine.{at, begin, begun, count_read, counted_read, element_read, elements_begun, end_read, entry_read, enough, format_begun, format_end_read, format_read, header_read, name_read, names_begun, next_read, node_read, nodes_begun, skipped_read, step, with_element};

use crate::elements::element;
use crate::entry::Entry;
use crate::fault::{Fault, MshKind};
use crate::lines::{closes, count, format, header};
use crate::name_lines::name;
use crate::node_lines::{add_number, node};
use crate::raw::{Name, RawMark, RawMesh, RawTet};
use crate::stand::{Counted, Stand};
use indexmap::IndexSet;
use ma_cells::Ascending;
use ma_geom::{Memory, Place};
use std::alloc::Global;
use std::marker::Model;

/// What the lines of a front of a file say. After a fault nothing is known of it.
#[derive(Drop)]
pub struct Front<'a> {
    alloc: Global,
    /// Where the next line stands.
    stand: Stand,
    /// The name of the section that was begun last.
    header: &'a [u8],
    has_format: bool,
    has_names: bool,
    has_nodes: bool,
    has_elements: bool,
    /// The nodes' numbers, in the order of their places.
    numbers: IndexSet<i64>,
    nodes: Vec<Place>,
    tets: Vec<RawTet>,
    marks: Vec<RawMark>,
    names: Vec<Name>,
    /// Room for the numbers of one line.
    words: Vec<i64>,
}

impl<'a> Model for Front<'a> {
    ghost use Rattle.std.specs.Prelude.{◌≡◌, true};
    ghost use Rattle.std.specs.List.{list_all};
    ghost use Rattle.msh_read.specs.steps.Front.{Front as Read};
    ghost use Rattle.msh_read.specs.GroupNames.{has_dimension};

    ghost Value = { Read };

    ghost view = { λ f. record {
      stand = f.stand;
      header = f.header.now;
      has_format = f.has_format;
      has_names = f.has_names;
      has_nodes = f.has_nodes;
      has_elements = f.has_elements;
      numbers = f.numbers.keys;
      nodes = f.nodes.items;
      tets = f.tets.items;
      marks = f.marks.items;
      names = f.names.items;
    } };

    ghost invariant = { λ f. list_all has_dimension f.names.items ≡ true };
}

impl<'a> Front<'a> {
    pub fn new(alloc: Global) -> Front<'a>
        ensures { result ≡ nothing_read }
    {
        Front {
            alloc,
            stand: Stand::Outside,
            header: &[],
            has_format: false,
            has_names: false,
            has_nodes: false,
            has_elements: false,
            numbers: IndexSet::new(alloc),
            nodes: Vec::new(alloc),
            tets: Vec::new(alloc),
            marks: Vec::new(alloc),
            names: Vec::new(alloc),
            words: Vec::new(alloc),
        }
    }

    fn begin(&mut self, stand: Stand, name: &'a [u8])
        ensures { self.new ≡ begin stand name.entry.now self.old }
    {
        self.stand = stand;
        self.header = name;
    }

    #[tactic(auto, unfolding(crate::specs::steps::LineByLine::format_begun))]
    fn begin_format(&mut self, name: &'a [u8]) -> Result<(), Fault>
        ensures { Gives (λ _. self.new) result (format_begun name.entry.now self.old) }
    {
        if self.has_format {
            return Err(Fault::Kind(MshKind::BadLine));
        }
        self.has_format = true;
        self.begin(Stand::Format, name);
        Ok(())
    }

    #[tactic(auto, unfolding(crate::specs::steps::LineByLine::names_begun))]
    fn begin_names(&mut self, name: &'a [u8]) -> Result<(), Fault>
        ensures { Gives (λ _. self.new) result (names_begun name.entry.now self.old) }
    {
        if !self.has_format {
            return Err(Fault::Kind(MshKind::NoFormat));
        }
        if self.has_names {
            return Err(Fault::Kind(MshKind::BadLine));
        }
        self.has_names = true;
        self.begin(Stand::Count(Counted::Names), name);
        Ok(())
    }

    #[tactic(auto, unfolding(crate::specs::steps::LineByLine::nodes_begun))]
    fn begin_nodes(&mut self, name: &'a [u8]) -> Result<(), Fault>
        ensures { Gives (λ _. self.new) result (nodes_begun name.entry.now self.old) }
    {
        if !self.has_format {
            return Err(Fault::Kind(MshKind::NoFormat));
        }
        if self.has_nodes {
            return Err(Fault::Kind(MshKind::BadLine));
        }
        self.has_nodes = true;
        self.begin(Stand::Count(Counted::Nodes), name);
        Ok(())
    }

    #[tactic(auto, unfolding(crate::specs::steps::LineByLine::elements_begun))]
    fn begin_elements(&mut self, name: &'a [u8]) -> Result<(), Fault>
        ensures { Gives (λ _. self.new) result (elements_begun name.entry.now self.old) }
    {
        if !self.has_format {
            return Err(Fault::Kind(MshKind::NoFormat));
        }
        if !self.has_nodes {
            return Err(Fault::Kind(MshKind::NoNodes));
        }
        if self.has_elements {
            return Err(Fault::Kind(MshKind::BadLine));
        }
        self.has_elements = true;
        self.begin(Stand::Count(Counted::Elements), name);
        Ok(())
    }

    #[tactic(auto, unfolding(crate::specs::steps::LineByLine::begun))]
    fn begin_section(&mut self, name: &'a [u8]) -> Result<(), Fault>
        ensures { Gives (λ _. self.new) result (begun name.entry.now self.old) }
    {
        if name == b"MeshFormat".as_slice() {
            self.begin_format(name)
        } else if name == b"PhysicalNames".as_slice() {
            self.begin_names(name)
        } else if name == b"Nodes".as_slice() {
            self.begin_nodes(name)
        } else if name == b"Elements".as_slice() {
            self.begin_elements(name)
        } else {
            self.begin(Stand::Skipped, name);
            Ok(())
        }
    }

    #[tactic(auto, unfolding(crate::specs::steps::LineByLine::header_read))]
    fn read_header(&mut self, line: &'a [u8]) -> Result<(), Fault>
        ensures { Gives (λ _. self.new) result (header_read self.old line.entry.now) }
    {
        match header(line) {
            Ok(name) => self.begin_section(name),
            Err(kind) => Err(Fault::Kind(kind)),
        }
    }

    #[tactic(auto, unfolding(crate::specs::steps::LineByLine::skipped_read))]
    fn read_skipped(&mut self, line: &[u8])
        ensures { skipped_read self.old line.now ≡ Ok self.new }
    {
        if closes(self.header, line) {
            self.stand = Stand::Outside;
        }
    }

    #[tactic(auto, unfolding(crate::specs::steps::LineByLine::format_read))]
    fn read_format(&mut self, line: &[u8]) -> Result<(), Fault>
        ensures { Gives (λ _. self.new) result (format_read self.old line.now) }
    {
        match format(line) {
            Ok(()) => {
                self.stand = Stand::FormatEnd;
                Ok(())
            }
            Err(kind) => Err(Fault::Kind(kind)),
        }
    }

    #[tactic(auto, unfolding(crate::specs::steps::LineByLine::format_end_read))]
    fn read_format_end(&mut self, line: &[u8]) -> Result<(), Fault>
        ensures { Gives (λ _. self.new) result (format_end_read self.old line.now) }
    {
        if closes(self.header, line) {
            self.stand = Stand::Outside;
            Ok(())
        } else {
            Err(Fault::Kind(MshKind::BadLine))
        }
    }

    #[tactic(auto, unfolding(crate::specs::steps::LineByLine::count_read))]
    fn read_count(&mut self, section: Counted, line: &[u8]) -> Result<(), Fault>
        ensures { Gives (λ _. self.new) result (count_read section self.old line.now) }
    {
        let count = count(line)?;
        enough(section, count)?;
        self.stand = Stand::Entries(section, count);
        Ok(())
    }

    #[tactic(auto, using(crate::proofs::Dimensions::dimensions_kept), unfolding(crate::specs::steps::LineByLine::name_read))]
    fn read_name(&mut self, line: &[u8]) -> Result<(), Fault>
        ensures { Gives (λ _. self.new) result (name_read self.old line.now) }
    {
        let name = name(self.alloc, line)?;
        self.names.push(name)?;
        Ok(())
    }

    #[tactic(auto, unfolding(crate::specs::steps::LineByLine::node_read))]
    fn read_node(&mut self, line: &[u8]) -> Result<(), Fault>
        ensures { Gives (λ _. self.new) result (node_read self.old line.now) }
    {
        let (number, place) = node(&self.numbers, line)?;
        add_number(&mut self.numbers, number)?;
        self.nodes.push(place)?;
        Ok(())
    }

    fn push(&mut self, entry: Entry) -> Result<(), Memory>
        ensures { OnOk result (self.new ≡ with_element (element_seen entry) self.old) }
    {
        match entry {
            Entry::Tet(tet) => self.tets.push(tet)?,
            Entry::Mark(mark) => self.marks.push(mark)?,
        }
        Ok(())
    }

    #[tactic(auto, unfolding(crate::specs::steps::LineByLine::element_read))]
    fn read_element(&mut self, line: &[u8]) -> Result<(), Fault>
        ensures { Gives (λ _. self.new) result (element_read self.old line.now) }
    {
        let entry = element(&self.numbers, &mut self.words, line)?;
        self.push(entry)?;
        Ok(())
    }

    fn read_entry(&mut self, section: Counted, line: &[u8]) -> Result<(), Fault>
        ensures { Gives (λ _. self.new) result (entry_read section self.old line.now) }
    {
        match section {
            Counted::Names => self.read_name(line),
            Counted::Nodes => self.read_node(line),
            Counted::Elements => self.read_element(line),
        }
    }

    #[tactic(auto, unfolding(crate::specs::steps::LineByLine::end_read))]
    fn read_end(&mut self, left: u64) -> Result<(), Fault>
        ensures { Gives (λ _. self.new) result (end_read left self.old) }
    {
        if left != 0 {
            return Err(Fault::Kind(MshKind::BadCount));
        }
        self.stand = Stand::Outside;
        Ok(())
    }

    #[tactic(auto, unfolding(crate::specs::steps::LineByLine::next_read))]
    fn read_next(&mut self, section: Counted, left: u64, line: &[u8]) -> Result<(), Fault>
        ensures { Gives (λ _. self.new) result (next_read section left self.old line.now) }
    {
        if left == 0 {
            return Err(Fault::Kind(MshKind::BadCount));
        }
        self.read_entry(section, line)?;
        self.stand = Stand::Entries(section, left - 1);
        Ok(())
    }

    #[tactic(auto, unfolding(crate::specs::steps::LineByLine::counted_read))]
    fn read_counted(&mut self, section: Counted, left: u64, line: &[u8]) -> Result<(), Fault>
        ensures { Gives (λ _. self.new) result (counted_read section left self.old line.now) }
    {
        if closes(self.header, line) {
            self.read_end(left)
        } else {
            self.read_next(section, left, line)
        }
    }

    /// Reads the line that comes next.
    #[tactic(auto, unfolding(crate::specs::steps::LineByLine::step))]
    pub fn step(&mut self, line: &'a [u8]) -> Result<(), Fault>
        ensures { Gives (λ _. self.new) result (step self.old line.entry.now) }
    {
        match self.stand {
            Stand::Outside => self.read_header(line),
            Stand::Skipped => {
                self.read_skipped(line);
                Ok(())
            }
            Stand::Format => self.read_format(line),
            Stand::FormatEnd => self.read_format_end(line),
            Stand::Count(section) => self.read_count(section, line),
            Stand::Entries(section, left) => self.read_counted(section, left, line),
        }
    }

    fn is_outside(&self) -> bool
        ensures { result ≡ is_outside self.now.stand }
    {
        matches!(self.stand, Stand::Outside)
    }

    /// Tests that a file may end here.
    fn end(&self) -> Result<(), MshKind>
        ensures { result ≡ may_end self.now }
    {
        if !self.is_outside() {
            Err(MshKind::Truncated)
        } else if !self.has_format {
            Err(MshKind::NoFormat)
        } else if !self.has_nodes {
            Err(MshKind::NoNodes)
        } else if !self.has_elements {
            Err(MshKind::NoElements)
        } else {
            Ok(())
        }
    }

    fn into_mesh(self) -> RawMesh
        ensures value { raw result ≡ mesh_said self.entry }
        ensures names { IsStrictlySortedBy name_cmp result.names.items }
        ensures dimensions { All (λ name. name.dimension ≤ 3) result.names.items }
    {
        RawMesh {
            nodes: self.nodes,
            tets: self.tets,
            marks: self.marks,
            names: set_of(self.names),
        }
    }

    /// What the file says that ends here.
    #[tactic(auto, unfolding(crate::specs::steps::LinesRead::end_of))]
    pub fn finish(self) -> Result<RawMesh, Fault>
        ensures value { Gives raw result (end_of self.entry) }
        ensures names { IfOk result (λ mesh. IsStrictlySortedBy name_cmp mesh.names.items) }
        ensures dimensions { IfOk result (λ mesh. All (λ name. name.dimension ≤ 3) mesh.names.items) }
    {
        self.end()?;
        Ok(self.into_mesh())
    }
}

/// The set of these names.
fn set_of(names: Vec<Name>) -> Vec<Name>
    requires { list_all has_dimension names.items ≡ true }
    ensures dimensions { All (λ name. name.dimension ≤ 3) result.items }
    ensures value { result.items ≡ ascending_of name_cmp names.items }
    ensures rises { IsStrictlySortedBy name_cmp result.items }
{
    Ascending::gather(names).into_vec()
}

/// Tests that a section has as many entries as it has to have.
fn enough(section: Counted, count: u64) -> Result<(), MshKind>
    ensures { result ≡ enough section count }
{
    match section {
        Counted::Names => Ok(()),
        Counted::Nodes => match count {
            0 => Err(MshKind::NoNodes),
            _ => Ok(()),
        },
        Counted::Elements => match count {
            0 => Err(MshKind::NoElements),
            _ => Ok(()),
        },
    }
}
