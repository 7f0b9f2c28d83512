ghost use Rattle.std.specs.Prelude.{◌≡◌, ◌||◌, ◌&&◌, [], OnOk, IfOk};
ghost use Rattle.spec_syntax.specs.Placement.{smallest};
ghost use Rattle.py_outline.specs.Surroundings.{is_def, is_loop, is_handler, place_inside, inside, allows_simple, allows_header, allows, innermost, round_behind, place_faults};

use crate::stack::Stack;
use crate::told::with_fault;
use crate::{Form, HeaderKind, Outline, SimpleKind};
use std::alloc::Global;
use xh_outside::NoMemory;

/// Where a block stands.
#[derive(Clone, Copy)]
enum Place {
    /// The module itself, which is in no block.
    Module,
    /// The block of a class that stands in no block.
    Class,
    /// Any other one.
    Inner,
}

/// What the headers of the blocks round a line say of it.
#[derive(Clone, Copy)]
struct Surroundings {
    in_function: bool,
    /// In a loop of the innermost function.
    in_loop: bool,
    /// In an `except` of the innermost function.
    in_handler: bool,
    place: Place,
}

/// The surroundings of lines in no block.
const OF_MODULE: Surroundings = Surroundings {
    in_function: false,
    in_loop: false,
    in_handler: false,
    place: Place::Module,
};

impl Surroundings {
    /// The surroundings in the block of a header that stands here.
    fn inside(self, header: HeaderKind) -> Surroundings
        ensures { result ≡ inside header self }
    {
        let is_def = matches!(header, HeaderKind::Def);
        let is_loop = matches!(header, HeaderKind::While | HeaderKind::For);
        let is_handler = matches!(header, HeaderKind::Except | HeaderKind::ExceptAll);
        Surroundings {
            in_function: is_def || self.in_function,
            in_loop: !is_def && (is_loop || self.in_loop),
            in_handler: !is_def && (is_handler || self.in_handler),
            place: place_inside(header, self.place),
        }
    }

    fn allows_simple(self, simple: SimpleKind) -> bool
        ensures { result ≡ allows_simple self simple }
    {
        match simple {
            SimpleKind::Return => self.in_function,
            SimpleKind::Break | SimpleKind::Continue => self.in_loop,
            SimpleKind::Reraise => self.in_handler,
            SimpleKind::Import => matches!(self.place, Place::Module),
            SimpleKind::Other => true,
        }
    }

    fn allows_header(self, header: HeaderKind) -> bool
        ensures { result ≡ allows_header self header }
    {
        match header {
            HeaderKind::Class => matches!(self.place, Place::Module),
            HeaderKind::Def => !matches!(self.place, Place::Inner),
            _ => true,
        }
    }

    /// Whether a line may stand here.
    fn allows(self, form: Form) -> bool
        ensures { result ≡ allows self form }
    {
        match form {
            Form::Simple(simple) => self.allows_simple(simple),
            Form::Header(header) => self.allows_header(header),
            Form::HeaderSimple(header, simple) => {
                self.allows_header(header) && self.inside(header).allows_simple(simple)
            }
        }
    }
}

/// Where the block of a header stands, by the place of the header.
fn place_inside(header: HeaderKind, place: Place) -> Place
    ensures { result ≡ place_inside header place }
{
    match (header, place) {
        (HeaderKind::Class, Place::Module) => Place::Class,
        _ => Place::Inner,
    }
}

fn innermost(blocks: &Stack<Surroundings>) -> Surroundings
    ensures { result ≡ innermost blocks.now }
{
    match blocks.first() {
        Some(surroundings) => surroundings,
        None => OF_MODULE,
    }
}

/// Opens the block that a line awaits.
fn enter(blocks: &mut Stack<Surroundings>, form: Form) -> Result<(), NoMemory>
    ensures { OnOk result (blocks.new ≡ round_behind blocks.old form) }
{
    if let Form::Header(header) = form {
        blocks.push(innermost(blocks).inside(header))?;
    }
    Ok(())
}

/// The smallest line of a fault in the blocks round it.
pub(crate) fn place_fault(alloc: Global, outlines: &[Outline]) -> Result<Option<u32>, NoMemory>
    ensures { IfOk result (λ line. line ≡ smallest (place_faults [] outlines.now)) }
{
    let mut told = None;
    let mut blocks = Stack::new(alloc);
    for outline in outlines {
        blocks.shorten(outline.depth);
        let is_fault = !innermost(&blocks).allows(outline.form);
        told = with_fault(told, is_fault, outline.line);
        enter(&mut blocks, outline.form)?;
    }
    Ok(told)
}
