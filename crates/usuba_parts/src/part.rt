//! The parts of a tree that is being built, as a stack. Lists of parts are built from their last item on, so they stand in
//! reverse.

ghost use Rattle.std.specs.Prelude.{◌≡◌, ◌≢◌, ◌∷◌, [], IsTrue, OnOk};
ghost use Rattle.usuba_parts.specs.Parts as top;

use std::alloc::{AllocError, Global};
use std::marker::Model;
use tor_edge::{List, Place};
use usuba_tokens::TypeWord;
use usuba_trees::{
    Decl, Def, Expr, File, Grid, Index, IndexLink, Item, Link, Pick, Shape, ShiftLink, Spot, Word,
};

/// The place of a sign or a reserved word. Not `Copy`: a part that is only read is costly to prove let go.
#[derive(Drop)]
pub struct Mark {
    pub place: Place,
}

/// A number where it stands.
#[derive(Drop)]
pub struct Numeral {
    pub place: Place,
    pub value: u64,
}

/// What a stretch of the text is.
#[derive(Drop)]
pub enum Part {
    /// A sign or a reserved word.
    Mark(Mark),
    Word(Word),
    TypeWord(TypeWord, Place),
    Number(Numeral),
    Index(Index),
    IndexLinks(List<IndexLink>),
    /// The bounds of a loop.
    Bounds(Index, Index),
    /// The upper end of a pick, where it has one.
    High(Option<Index>),
    Pick(Pick),
    Picks(List<Pick>),
    Spot(Spot),
    Spots(List<Spot>),
    Expr(Expr),
    Exprs(List<Expr>),
    Links(List<Link>),
    Shifts(List<ShiftLink>),
    Refreshed(Expr, Index),
    Item(Item),
    Items(List<Item>),
    Numbers(List<u64>),
    Shape(Shape),
    /// A type and the declarations of names before it.
    Group(Shape, List<Decl>),
    Decls(List<Decl>),
    Grid(Grid),
    Def(Def),
    Defs(List<Def>),
    File(File),
}

/// The parts that stand one after another, the first on top.
#[derive(Drop)]
pub struct Parts {
    parts: Vec<Part>,
}

impl Model for Parts {
    ghost use Rattle.std.specs.Coded.{coded_list};
    ghost use Rattle.std.specs.Prelude.{List, reverse};
    ghost use Rattle.usuba_parts.specs.contracts.part.Part as part;
    ghost use Rattle.usuba_parts.specs.declared.part.Part.{Part};

    ghost Value = { List Part };

    ghost coded = { coded_list part.the_row.coded };

    ghost view = { λ p. reverse p.parts.items };
}

// A part that is only read is let go of in another function, since a part of which a pattern takes nothing that has to be
// let go costs minutes to prove.
fn place_of_mark(part: &Part) -> Place
    requires { IsTrue (top.is_mark (part.now ∷ [])) }
    ensures { part.now ≡ Part.Mark (record { place = result }) }
{
    match part {
        Part::Mark(mark) => mark.place,
        _ => unreachable!(),
    }
}

fn copy_of_numeral(part: &Part) -> Numeral
    requires { IsTrue (top.is_number (part.now ∷ [])) }
    ensures { part.now ≡ Part.Number result }
{
    match part {
        Part::Number(numeral) => Numeral {
            place: numeral.place,
            value: numeral.value,
        },
        _ => unreachable!(),
    }
}

impl Parts {
    pub fn new(alloc: Global) -> Parts
        ensures { result ≡ [] }
    {
        Parts {
            parts: Vec::new(alloc),
        }
    }

    pub fn push(&mut self, part: Part) -> Result<(), AllocError>
        ensures { OnOk result (self.new ≡ part ∷ self.old) }
    {
        self.parts.push(part)?;
        Ok(())
    }

    pub fn pop(&mut self) -> Part
        requires { self.old ≢ [] }
        ensures { self.old ≡ result ∷ self.new }
    {
        match self.parts.pop() {
            Some(part) => part,
            None => unreachable!(),
        }
    }

    pub fn pop_mark(&mut self) -> Place
        requires { IsTrue (top.is_mark self.old) }
        ensures { self.old ≡ Part.Mark (record { place = result }) ∷ self.new }
    {
        let part = self.pop();
        let place = place_of_mark(&part);
        drop(part);
        place
    }

    pub fn pop_word(&mut self) -> Word
        requires { IsTrue (top.is_word self.old) }
        ensures { self.old ≡ Part.Word result ∷ self.new }
    {
        match self.parts.pop() {
            Some(Part::Word(value)) => value,
            _ => unreachable!(),
        }
    }

    pub fn pop_type_word(&mut self) -> (TypeWord, Place)
        requires { IsTrue (top.is_type_word self.old) }
        ensures { self.old ≡ Part.TypeWord result.0 result.1 ∷ self.new }
    {
        match self.parts.pop() {
            Some(Part::TypeWord(first, second)) => (first, second),
            _ => unreachable!(),
        }
    }

    pub fn pop_number(&mut self) -> Numeral
        requires { IsTrue (top.is_number self.old) }
        ensures { self.old ≡ Part.Number result ∷ self.new }
    {
        let part = self.pop();
        let numeral = copy_of_numeral(&part);
        drop(part);
        numeral
    }

    pub fn pop_index(&mut self) -> Index
        requires { IsTrue (top.is_index self.old) }
        ensures { self.old ≡ Part.Index result ∷ self.new }
    {
        match self.parts.pop() {
            Some(Part::Index(value)) => value,
            _ => unreachable!(),
        }
    }

    pub fn pop_index_links(&mut self) -> List<IndexLink>
        requires { IsTrue (top.is_index_links self.old) }
        ensures { self.old ≡ Part.IndexLinks result ∷ self.new }
    {
        match self.parts.pop() {
            Some(Part::IndexLinks(value)) => value,
            _ => unreachable!(),
        }
    }

    pub fn pop_bounds(&mut self) -> (Index, Index)
        requires { IsTrue (top.is_bounds self.old) }
        ensures { self.old ≡ Part.Bounds result.0 result.1 ∷ self.new }
    {
        match self.parts.pop() {
            Some(Part::Bounds(first, second)) => (first, second),
            _ => unreachable!(),
        }
    }

    pub fn pop_high(&mut self) -> Option<Index>
        requires { IsTrue (top.is_high self.old) }
        ensures { self.old ≡ Part.High result ∷ self.new }
    {
        match self.parts.pop() {
            Some(Part::High(value)) => value,
            _ => unreachable!(),
        }
    }

    pub fn pop_pick(&mut self) -> Pick
        requires { IsTrue (top.is_pick self.old) }
        ensures { self.old ≡ Part.Pick result ∷ self.new }
    {
        match self.parts.pop() {
            Some(Part::Pick(value)) => value,
            _ => unreachable!(),
        }
    }

    pub fn pop_picks(&mut self) -> List<Pick>
        requires { IsTrue (top.is_picks self.old) }
        ensures { self.old ≡ Part.Picks result ∷ self.new }
    {
        match self.parts.pop() {
            Some(Part::Picks(value)) => value,
            _ => unreachable!(),
        }
    }

    pub fn pop_spot(&mut self) -> Spot
        requires { IsTrue (top.is_spot self.old) }
        ensures { self.old ≡ Part.Spot result ∷ self.new }
    {
        match self.parts.pop() {
            Some(Part::Spot(value)) => value,
            _ => unreachable!(),
        }
    }

    pub fn pop_spots(&mut self) -> List<Spot>
        requires { IsTrue (top.is_spots self.old) }
        ensures { self.old ≡ Part.Spots result ∷ self.new }
    {
        match self.parts.pop() {
            Some(Part::Spots(value)) => value,
            _ => unreachable!(),
        }
    }

    pub fn pop_expr(&mut self) -> Expr
        requires { IsTrue (top.is_expr self.old) }
        ensures { self.old ≡ Part.Expr result ∷ self.new }
    {
        match self.parts.pop() {
            Some(Part::Expr(value)) => value,
            _ => unreachable!(),
        }
    }

    pub fn pop_exprs(&mut self) -> List<Expr>
        requires { IsTrue (top.is_exprs self.old) }
        ensures { self.old ≡ Part.Exprs result ∷ self.new }
    {
        match self.parts.pop() {
            Some(Part::Exprs(value)) => value,
            _ => unreachable!(),
        }
    }

    pub fn pop_links(&mut self) -> List<Link>
        requires { IsTrue (top.is_links self.old) }
        ensures { self.old ≡ Part.Links result ∷ self.new }
    {
        match self.parts.pop() {
            Some(Part::Links(value)) => value,
            _ => unreachable!(),
        }
    }

    pub fn pop_shifts(&mut self) -> List<ShiftLink>
        requires { IsTrue (top.is_shifts self.old) }
        ensures { self.old ≡ Part.Shifts result ∷ self.new }
    {
        match self.parts.pop() {
            Some(Part::Shifts(value)) => value,
            _ => unreachable!(),
        }
    }

    pub fn pop_refreshed(&mut self) -> (Expr, Index)
        requires { IsTrue (top.is_refreshed self.old) }
        ensures { self.old ≡ Part.Refreshed result.0 result.1 ∷ self.new }
    {
        match self.parts.pop() {
            Some(Part::Refreshed(first, second)) => (first, second),
            _ => unreachable!(),
        }
    }

    pub fn pop_item(&mut self) -> Item
        requires { IsTrue (top.is_item self.old) }
        ensures { self.old ≡ Part.Item result ∷ self.new }
    {
        match self.parts.pop() {
            Some(Part::Item(value)) => value,
            _ => unreachable!(),
        }
    }

    pub fn pop_items(&mut self) -> List<Item>
        requires { IsTrue (top.is_items self.old) }
        ensures { self.old ≡ Part.Items result ∷ self.new }
    {
        match self.parts.pop() {
            Some(Part::Items(value)) => value,
            _ => unreachable!(),
        }
    }

    pub fn pop_numbers(&mut self) -> List<u64>
        requires { IsTrue (top.is_numbers self.old) }
        ensures { self.old ≡ Part.Numbers result ∷ self.new }
    {
        match self.parts.pop() {
            Some(Part::Numbers(value)) => value,
            _ => unreachable!(),
        }
    }

    pub fn pop_shape(&mut self) -> Shape
        requires { IsTrue (top.is_shape self.old) }
        ensures { self.old ≡ Part.Shape result ∷ self.new }
    {
        match self.parts.pop() {
            Some(Part::Shape(value)) => value,
            _ => unreachable!(),
        }
    }

    pub fn pop_group(&mut self) -> (Shape, List<Decl>)
        requires { IsTrue (top.is_group self.old) }
        ensures { self.old ≡ Part.Group result.0 result.1 ∷ self.new }
    {
        match self.parts.pop() {
            Some(Part::Group(first, second)) => (first, second),
            _ => unreachable!(),
        }
    }

    pub fn pop_decls(&mut self) -> List<Decl>
        requires { IsTrue (top.is_decls self.old) }
        ensures { self.old ≡ Part.Decls result ∷ self.new }
    {
        match self.parts.pop() {
            Some(Part::Decls(value)) => value,
            _ => unreachable!(),
        }
    }

    pub fn pop_grid(&mut self) -> Grid
        requires { IsTrue (top.is_grid self.old) }
        ensures { self.old ≡ Part.Grid result ∷ self.new }
    {
        match self.parts.pop() {
            Some(Part::Grid(value)) => value,
            _ => unreachable!(),
        }
    }

    pub fn pop_def(&mut self) -> Def
        requires { IsTrue (top.is_def self.old) }
        ensures { self.old ≡ Part.Def result ∷ self.new }
    {
        match self.parts.pop() {
            Some(Part::Def(value)) => value,
            _ => unreachable!(),
        }
    }

    pub fn pop_defs(&mut self) -> List<Def>
        requires { IsTrue (top.is_defs self.old) }
        ensures { self.old ≡ Part.Defs result ∷ self.new }
    {
        match self.parts.pop() {
            Some(Part::Defs(value)) => value,
            _ => unreachable!(),
        }
    }

    pub fn pop_file(&mut self) -> File
        requires { IsTrue (top.is_file self.old) }
        ensures { self.old ≡ Part.File result ∷ self.new }
    {
        match self.parts.pop() {
            Some(Part::File(value)) => value,
            _ => unreachable!(),
        }
    }
}
