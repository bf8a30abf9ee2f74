//! The nest of one task, with the counts of its blocks.
ghost use Rattle.std.specs.Prelude.{◌≡◌, ℕ, true, false, None, ◌-◌, ◌<◌, ◌≤◌, ◌==◌, [], ◌∷◌, ◌++◌, length, take, position, slice_get};
ghost use Rattle.std.specs.List.{list_any};
ghost use Rattle.ada_tables.specs.Layers.{member_of, members};
ghost use Rattle.ada_tables.specs.internal.Layers as nests;
ghost use Rattle.ada_tables.specs.declared.layers.Layer.TheVariants.{Block};
ghost use Rattle.ada_events.specs.Holders.{has_block, up_to};
ghost use Rattle.ada_tables.specs.Dependents.{block_of, outside};
ghost use Rattle.ada_tables.specs.internal.Changes.{changed};
ghost use Rattle.ada_events.specs.declared.limits.TheConstants.{MOST_MEMBERS};

use crate::change::Change;
use ada_events::Member;
use ada_events::limits::MOST_MEMBERS;
use arrayvec::ArrayVec;
use std::marker::Model;

/// A member of a nest: a block, with the number of its live dependents and the position of its opening, or a
/// rendezvous by the position of its call.
#[derive(Clone, Copy)]
pub enum Layer {
    Block { live: u16, opening: u32 },
    Rendezvous { call: u32 },
}

impl Default for Layer {
    ghost is_default = { λ layer. layer ≡ Block 0 0 };

    fn default() -> Self {
        Layer::Block {
            live: 0,
            opening: 0,
        }
    }
}

impl Layer {
    // A member without dependents.
    fn of(member: Member) -> Layer
        ensures { result ≡ nests.layer_of member }
    {
        match member {
            Member::Block(opening) => Layer::Block { live: 0, opening },
            Member::Rendezvous(call) => Layer::Rendezvous { call },
        }
    }

    /// The member that it is.
    pub fn member(self) -> Member
        ensures { result ≡ member_of self }
    {
        match self {
            Layer::Block { opening, .. } => Member::Block(opening),
            Layer::Rendezvous { call } => Member::Rendezvous(call),
        }
    }

    fn is_block_at(self, position: u32) -> bool
        ensures { result ≡ nests.is_block_at position self }
    {
        self.block() == Some(position)
    }

    fn is_rendezvous_at(self, position: u32) -> bool
        ensures { result ≡ nests.is_rendezvous_at position self }
    {
        match self {
            Layer::Block { .. } => false,
            Layer::Rendezvous { call } => call == position,
        }
    }

    // The position of its opening, if this is a block.
    fn block(self) -> Option<u32>
        ensures { result ≡ block_of (member_of self) }
    {
        match self {
            Layer::Block { opening, .. } => Some(opening),
            Layer::Rendezvous { .. } => None,
        }
    }

    // The number of its live dependents.
    fn live(self) -> u16
        ensures { result ≡ nests.live_of self }
    {
        match self {
            Layer::Block { live, .. } => live,
            Layer::Rendezvous { .. } => 0,
        }
    }

    // With the count changed, if this is a block.
    fn counted(self, change: Change) -> Layer
        ensures { result ≡ nests.moved (changed change) self }
    {
        match self {
            Layer::Block { live, opening } => Layer::Block {
                live: change.of(live),
                opening,
            },
            Layer::Rendezvous { .. } => self,
        }
    }
}

// The place of the rendezvous with a call.
fn place_of(layers: &[Layer], call: u32) -> Option<usize>
    ensures { result ≡ position (nests.is_rendezvous_at call) layers.now }
{
    layers.iter().position(|layer| layer.is_rendezvous_at(call))
}

// Changes the counts of a block and of those outside it.
fn count(layers: &mut [Layer], block: u32, change: Change)
    ensures { layers.new ≡ nests.moved_to (changed change) block layers.old }
{
    for layer in layers.iter_mut() {
        let before = *layer;
        *layer = before.counted(change);
        if before.is_block_at(block) {
            break;
        }
    }
}

// Whether a block is one of some members.
fn has_block_among(layers: &[Layer], block: u32) -> bool
    ensures { result ≡ list_any (nests.is_block_at block) layers.now }
{
    layers.iter().any(|layer| layer.is_block_at(block))
}

// Whether a block stands in a nest. It is mostly the innermost member that is asked for, which is looked at first.
fn has_block(layers: &[Layer], block: u32) -> bool
    ensures { result ≡ list_any (nests.is_block_at block) layers.now }
{
    match layers.split_last() {
        Some((last, rest)) => last.is_block_at(block) || has_block_among(rest, block),
        None => false,
    }
}

// Whether the second block is the first or stands outside it.
fn encloses(layers: &[Layer], inner: u32, block: u32) -> bool
    ensures { result ≡ has_block block (up_to inner (members layers.now)) }
{
    for layer in layers {
        if layer.is_block_at(block) {
            return true;
        }
        if layer.is_block_at(inner) {
            return false;
        }
    }
    false
}

// The block that is next outside another.
fn outside(layers: &[Layer], block: u32) -> Option<u32>
    ensures { result ≡ outside block None (members layers.now) }
{
    let mut before = None;
    for layer in layers {
        if layer.is_block_at(block) {
            return before;
        }
        before = layer.block().or(before);
    }
    None
}

// How many live dependents a block has. It is looked for from the innermost member on, which mostly is it.
fn live_in(layers: &[Layer], block: u32) -> u16
    requires { nests.AreOnce layers.now }
    ensures { result ≡ nests.live_at block layers.now }
{
    let mut place = layers.len();
    while place > 0 {
        place -= 1;
        if layers[place].is_block_at(block) {
            return layers[place].live();
        }
    }
    0
}

/// What a task is in (9.4, 9.5), outermost first, at most 32 members. Contracts see the list of its layers.
#[derive(Drop)]
pub struct Layers {
    layers: ArrayVec<Layer, MOST_MEMBERS>,
}

impl Model for Layers {
    ghost use Rattle.std.specs.Prelude.{List};
    ghost use Rattle.ada_tables.specs.declared.layers.Layer.{Layer as LayerValue};

    ghost Value = { List LayerValue };

    ghost view = { λ n. n.layers.items };

    ghost use Rattle.ada_tables.specs.internal.Layers.{AreOnce};

    // A block stands once in a nest.
    ghost invariant = { λ n. AreOnce n.layers.items };
}

impl Layers {
    /// An empty nest.
    pub fn new() -> Self
        ensures { result ≡ [] }
    {
        Layers {
            layers: ArrayVec::new(),
        }
    }

    /// A copy of the nest.
    pub(crate) fn copy(&self) -> Self
        ensures { result ≡ self.now }
    {
        let mut layers = ArrayVec::new();
        let Ok(()) = layers.try_extend_from_slice(self.layers.as_slice()) else {
            unreachable!()
        };
        Layers { layers }
    }

    /// How many members there are, at most 32.
    pub fn len(&self) -> usize
        ensures value { result ≡ length self.now }
        ensures fits { result ≤ MOST_MEMBERS }
    {
        self.layers.len()
    }

    /// Whether there is no member.
    pub fn is_empty(&self) -> bool
        ensures { result ≡ (length self.now == 0) }
    {
        self.layers.is_empty()
    }

    /// The members in their order, the outermost first, with the counts of the blocks.
    pub fn as_slice(&self) -> &[Layer]
        ensures value { result.now ≡ self.now }
        ensures fits { length result.now ≤ MOST_MEMBERS }
    {
        self.layers.as_slice()
    }

    /// The member at a place, 0 for the outermost.
    pub fn get(&self, place: usize) -> Option<Member>
        ensures { result ≡ slice_get (members self.now) place }
    {
        let layer = self.layers.as_slice().get(place)?;
        Some(layer.member())
    }

    /// Adds the innermost member. There must be room, and a block may not stand in the nest yet.
    pub(crate) fn push(&mut self, member: Member)
        requires room { length self.old < MOST_MEMBERS }
        requires fresh { (block : ℕ) → nests.is_block_at block (nests.layer_of member) ≡ true
            → has_block block (members self.old) ≡ false }
        ensures { self.new ≡ self.old ++ nests.layer_of member ∷ [] }
    {
        self.layers.push(Layer::of(member));
    }

    /// Takes out the innermost member.
    pub(crate) fn pop(&mut self)
        ensures { self.new ≡ take (length self.old - 1) self.old }
    {
        self.layers.pop();
    }

    /// Takes out the rendezvous with a call.
    #[inline(always)]
    pub(crate) fn cut(&mut self, call: u32)
        ensures { self.new ≡ nests.cut_layers call self.old }
    {
        if let Some(place) = place_of(self.layers.as_slice(), call) {
            self.layers.remove(place);
        }
    }

    /// Changes the counts of a block and of those outside it.
    pub(crate) fn count_to(&mut self, block: u32, change: Change)
        ensures { self.new ≡ nests.moved_to (changed change) block self.old }
    {
        count(self.layers.as_mut_slice(), block, change);
    }

    /// Whether a block stands in the nest.
    pub fn has_block(&self, block: u32) -> bool
        ensures { result ≡ has_block block (members self.now) }
    {
        has_block(self.layers.as_slice(), block)
    }

    /// Whether the second block is the first or stands outside it.
    pub(crate) fn encloses(&self, inner: u32, block: u32) -> bool
        ensures { result ≡ has_block block (up_to inner (members self.now)) }
    {
        encloses(self.layers.as_slice(), inner, block)
    }

    /// The block that is next outside another, if there is one.
    pub(crate) fn outside(&self, block: u32) -> Option<u32>
        ensures { result ≡ outside block None (members self.now) }
    {
        outside(self.layers.as_slice(), block)
    }

    /// How many live dependents a block of the nest has.
    pub(crate) fn live_at(&self, block: u32) -> u16
        ensures { result ≡ nests.live_at block self.now }
    {
        live_in(self.layers.as_slice(), block)
    }
}
