// A store where it fits: in a unit as it stands, or in one once it is reclaimed.
// Kept (5) in this file: store hands image, geometry and content to the two above it: a struct that lends them would be made there and taken apart there.
#![tactic(auto)]

ghost use Rattle.std.specs.Prelude.{◌≡◌, ◌+◌, ◌-◌, ◌%◌, ◌≤◌, ◌<◌, length};
ghost use Rattle.rules.specs.Unit;
ghost use Rattle.rules.specs.Unit.{stands};
ghost use Rattle.rules.specs.Jobs;
ghost use Rattle.rules.specs.Jobs.{size_for};
ghost use Rattle.rules.specs.Answers.{makes};
ghost use Rattle.rules.specs.Calls;
ghost use Rattle.rules.specs.Calls.{Call};
ghost use Rattle.laws.specs.Units.{RightGeometry};
ghost use Rattle.step_new.specs.Places.{SpotIf};
ghost use Rattle.place.specs.Homes.{WholeUnit, HomesTable};
ghost use Rattle.place.specs.Search.{room_once};
ghost use Rattle.place.specs.Found.{Vacant};
ghost use Rattle.call_look.specs.Known.{Known, Remaining};
ghost use Rattle.call_store.specs.Stores.{MeetsCall, here_job, moved_if, handle_then, after_job, Reclaims, Stores};

use place::Place;
use rules::{Answer, Geometry, Handle, NotDone, Rule};
use step_move::Way;
use step_new::Newcomer;

// Where a new descriptor goes in a unit, and its sector.
#[derive(Clone, Copy)]
pub struct Slot {
    pub position: usize,
    pub offset: usize,
}

// What a call asks to be stored beside its content: where the descriptor stands that becomes old then (NOWHERE where there is none), within how
// many steps, under which tag, by which rule. The longest field first: this spares stack.
#[derive(Clone, Copy)]
pub struct Order {
    pub earlier: usize,
    pub allowance: u32,
    pub tag: u16,
    pub rule: Rule,
}

// Where a content of so many bytes comes to lie in a unit: right below what is lowest.
fn offset_in(g: Geometry, unit: &[u8], len: usize) -> usize
    requires { WholeUnit g unit.now × (len ≤ 256) }
    ensures { result ≡ (Unit.room_of g unit.now).low - (len + len % 2) }
{
    unit::room_of(unit).low.saturating_sub(len + len % 2)
}

// A store at a vacant position of a unit that fits as it stands.
fn store_standing(
    image: &mut [u8],
    g: Geometry,
    home: &[u8; 64],
    at: Handle,
    order: Order,
    content: &[u8],
) -> Answer
    requires { RightGeometry g image.old × HomesTable g home.now × Vacant g image.old home.now (size_for content.now) (g.units - 1) at × SpotIf (length image.old) order.earlier × (length content.now ≤ 256) }
    ensures { (c : Call) → Calls.plan g image.old c ≡ makes at (here_job g image.old home.now order.tag content.now order.earlier at) → Calls.allowance c ≡ order.allowance → MeetsCall g c image.old result image.new }
{
    let base = g.base(usize::from(home[at.unit]));
    let offset = offset_in(g, &image[base..base + g.size], content.len());
    let tag = order.tag;
    let new = Newcomer { at, offset, tag };
    let going = Some(order.allowance);
    let r = step_new::store_in(image, g, base, new, content, order.earlier, going);
    call_answer::answer_of(r, order.allowance, at)
}

// Where a content of so many bytes comes to lie in a unit once that is reclaimed.
#[tactic(auto, unfolding(rules::specs::Unit::stands))]
fn slot_then(g: Geometry, unit: &[u8], len: usize) -> Slot
    requires { WholeUnit g unit.now × (len ≤ 256) }
    ensures { (result.position ≡ Jobs.vacant (room_once g (Unit.room_of g unit.now)).array) × (result.offset ≡ (room_once g (Unit.room_of g unit.now)).low - (len + len % 2)) × (stands (Unit.n (room_once g (Unit.room_of g unit.now))) ≤ g.size) }
{
    let room = unit::room_of(unit);
    let after = place::reclaimed(g, unit, room);
    Slot {
        position: place::first_unkept(unit, after.n),
        offset: after.low.saturating_sub(len + len % 2),
    }
}

// A place that may be there, once the one unit is moved to the other.
#[tactic(auto, unfolding(crate::specs::Stores::moved_if, theory::specs::After::Rebased::rebased))]
fn moved_place(way: Way, size: usize, a: usize) -> usize
    requires { (way.from + size ≤ 65536) × (way.to + size ≤ 65536) }
    ensures { result ≡ moved_if way.from way.to size a }
{
    if a != unit::NOWHERE && way.from <= a && a < way.from + size {
        way.to + (a - way.from)
    } else {
        a
    }
}

// A store in a unit that fits once it is reclaimed: all its numbers stand before the first step.
fn store_reclaiming(
    image: &mut [u8],
    g: Geometry,
    home: &[u8; 64],
    remaining: usize,
    number: usize,
    order: Order,
    content: &[u8],
) -> Answer
    requires { Reclaims g image.old home.now remaining (size_for content.now) number × SpotIf (length image.old) order.earlier × (length content.now ≤ 256) }
    ensures { (c : Call) → Calls.plan g image.old c ≡ makes (handle_then g image.old home.now number) (after_job g image.old home.now remaining order.tag content.now order.earlier number) → Calls.allowance c ≡ order.allowance → MeetsCall g c image.old result image.new }
{
    let way = Way {
        from: g.base(usize::from(home[number])),
        to: g.base(remaining),
    };
    let slot = slot_then(g, &image[way.from..way.from + g.size], content.len());
    let earlier = moved_place(way, g.size, order.earlier);
    let at = Handle {
        unit: number,
        position: slot.position,
    };
    let new = Newcomer {
        at,
        offset: slot.offset,
        tag: order.tag,
    };
    let going = Some(order.allowance);
    let moved = step_move::move_unit(image, g, way, number, going);
    let r = step_new::store_in(image, g, way.to, new, content, earlier, moved);
    call_answer::answer_of(r, order.allowance, at)
}

// A store where it fits by the rule: as a unit stands, or once one is reclaimed; else NO ROOM.
pub fn store(
    image: &mut [u8],
    g: Geometry,
    home: &[u8; 64],
    remaining: usize,
    order: Order,
    content: &[u8],
) -> Answer
    requires { Known g image.old home.now × Remaining g image.old remaining × SpotIf (length image.old) order.earlier × (length content.now ≤ 256) }
    ensures { (c : Call) → Stores g image.old c order.rule order.tag content.now order.earlier order.allowance → MeetsCall g c image.old result image.new }
{
    let len = content.len();
    match place::place_of(image, g, home, order.rule, len + len % 2) {
        Some(Place::AsItStands(at)) => store_standing(image, g, home, at, order, content),
        Some(Place::OnceReclaimed(number)) => {
            store_reclaiming(image, g, home, remaining, number, order, content)
        }
        None => Err(NotDone::NoRoom),
    }
}
