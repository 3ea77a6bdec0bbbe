//! One table of words under the rule.
ghost use Rattle.std.specs.Prelude.{◌≡◌, ◌≢◌, ◌<◌, ◌≤◌, ◌+◌, ◌++◌, [], None, length, take, vec_len, vec_capacity};
ghost use Rattle.std.specs.Mem.Slots.{slots_items, slots_len, IsFull};

use crate::truth::Truth;
use crate::view::{About, Cell, Gift, View};
use atomic_table::{Closed, Join as Unites, Play, Seat, Split, Table, TableRule};
use std::alloc::{AllocError, Global};
use std::marker::{Brand, PhantomData};
use std::snapshot::Snapshot;
use wl_lattice::{CLASH, FlatWord, MaxWord, value_number};
use wl_record_core::Record;

pub struct Rule<T, J> {
    of: PhantomData<(T, J)>,
}

impl<T: Truth, J: Cell> TableRule<(), View<T>, About<T>> for Rule<T, J> {
    ghost use Rattle.wl_hub.specs.Rule.{Holds, fresh, kind};

    ghost holds = { λ about. Holds (kind J.least J.joined J.word J.value (J.at about.shape.value.items))
        (T.is_true about.name.value) about.name.value about.shape.value.items about.words };

    ghost first = { λ about. fresh about.name.value about.shape.value.items };
}

pub struct Look<J> {
    of: PhantomData<J>,
}

impl<T: Truth, J: Cell> Play<(), View<T>> for Look<J> {
    ghost use Rattle.wl_hub.specs.Rule.{looked, kind};

    ghost then = { looked (λ shape. kind J.least J.joined J.word J.value (J.at shape)) T.is_true };
}

pub struct Give<J, K> {
    of: PhantomData<(J, K)>,
}

impl<T: Truth, J: Cell, K: Gift> Play<(), View<T>> for Give<J, K> {
    ghost use Rattle.wl_hub.specs.Rule.{gave, kind};

    ghost then = { gave (λ shape. kind J.least J.joined J.word J.value (J.at shape)) T.is_true K.gift };
}

pub struct Claim<K> {
    of: PhantomData<K>,
}

impl<T: Truth, K: Gift> Play<(), View<T>> for Claim<K> {
    ghost use Rattle.wl_hub.specs.Rule.{claimed, kind};
    ghost use Rattle.wl_hub.specs.Places.{edge_value, is_edge_at};
    ghost use Rattle.wl_lattice.specs.Numbers.{word_number};
    ghost use Rattle.wl_lattice.specs.Words.{joined_flat};
    ghost use Rattle.wl_lattice.specs.declared.FlatWord.TheVariants.{Nothing};

    ghost then = { claimed (λ shape. kind Nothing joined_flat word_number edge_value (is_edge_at shape))
        T.is_true K.gift };
}

pub struct Cut;

impl<T> Split<View<T>> for Cut {
    ghost use Rattle.wl_hub.specs.Rule.{newcomer};

    ghost left = { λ v. v };

    ghost right = { newcomer };
}

pub struct Glue;

impl<T> Unites<View<T>> for Glue {
    ghost use Rattle.wl_hub.specs.Rule.{both, spent};

    ghost both = { both };

    ghost spent = { spent };
}

/// What its holder gave and saw.
#[derive(Drop)]
pub struct Part<T> {
    pub(crate) seat: Seat<(), View<T>>,
    pub ghost named: { seat.me.0.name ≢ None },
    pub ghost bare: { seat.me.1 ≡ [] },
}

pub struct Board<T: Truth, J: Cell> {
    pub(crate) table: Table<(), View<T>, About<T>, Rule<T, J>, Global>,
    pub ghost no_slots: { table.shared.table_id.slots ≡ 0 },
    pub ghost some: { 0 < table.shared.key.words },
    pub ghost counted: { table.shared.table_id.words ≡ table.shared.key.words },
}

impl<T: Truth, J: Cell> Drop for Board<T, J> {
    fn drop(self) {
        let Self { table } = self;
        drop(table);
    }
}

// The first words of a closed table, after others in a list with room.
fn copied(mut words: Vec<u64>, closed: &Closed<(), Global>, count: usize) -> Vec<u64>
    requires room { vec_len words + count ≤ vec_capacity words }
    requires count { (count ≤ slots_len closed.now.words) × IsFull closed.now.words }
    ensures words { result.items ≡ words.items ++ take count (slots_items closed.now.words) }
    ensures room { (vec_capacity result ≡ vec_capacity words)
        × (length result.items ≡ length words.items + count) }
{
    for i in 0..count {
        words.push_reserved(closed.word(i));
    }
    words
}

impl<T: Truth, J: Cell> Board<T, J> {
    ghost use Rattle.std.specs.Prelude.{◌≡◌, ℕ, List, ◌<◌, ◌≤◌, ◌+◌, ◌^◌, ◌++◌, [], None, Some, IfOk, length, vec_len, vec_capacity};
    ghost use Rattle.wl_hub.specs.Rule.{kind, greatest_seen, joined, newcomer, both, fresh, Learns, AllTrue, Closes};

    /// Returns a table whose words are all 0, for a name.
    pub fn open(
        alloc: Global,
        name: &T,
        shape: &Vec<(u32, u32)>,
        words: usize,
    ) -> Result<(Board<T, J>, Part<T>), AllocError>
        requires some { 0 < words }
        ensures part { IfOk result
            (λ r. (r.1.seat.table_id ≡ r.0.table.shared.table_id) × (r.1.seat.me.0 ≡ fresh name.now shape.now.items)) }
        ensures key { IfOk result
            (λ r. (r.0.table.shared.key.words ≡ words) × (r.0.table.shared.key.shape.value.items ≡ shape.now.items)) }
        ensures small { IfOk result (λ r. words < 2 ^ 63) }
    {
        let zeros = vec![in alloc; 0u64; words]?;
        let about = About {
            name: Snapshot::of(name),
            shape: Snapshot::of(shape),
            words,
        };
        let (table, seat) = Table::of_words(alloc, zeros.as_slice(), &about)?;
        Ok((Board { table }, Part { seat }))
    }

    /// Ends the table, and puts its first words after others in a list with room.
    pub fn close(self, part: Part<T>, count: usize, words: Vec<u64>) -> Vec<u64>
        requires here { part.seat.table_id ≡ self.table.shared.table_id }
        requires count { count ≤ self.table.shared.key.words }
        requires room { vec_len words + count ≤ vec_capacity words }
        ensures room { vec_capacity result ≡ vec_capacity words }
        ensures words { (ws : List ℕ) × (length ws ≡ count) × (result.items ≡ words.items ++ ws)
            × Closes (λ shape. kind J.least J.joined J.word J.value (J.at shape)) T.is_true (λ _. count) ws part.seat.me.0 }
    {
        let Board { table } = self;
        let Part { seat } = part;
        let closed = table.close_with(seat);
        let words = copied(words, &closed, count);
        closed.free();
        words
    }

    /// Returns what is now seen of word i.
    pub fn look(&self, part: &mut Part<T>, i: usize) -> u64
        requires here { part.old.seat.table_id ≡ self.now.table.shared.table_id }
        requires inside { i < self.now.table.shared.key.words }
        ensures same { (part.new.seat.table_id ≡ part.old.seat.table_id) × (part.new.seat.id ≡ part.old.seat.id) }
        ensures word { result ≡ J.word
            (greatest_seen (kind J.least J.joined J.word J.value (J.at part.old.seat.me.0.shape)) i part.new.seat.me.0) }
        ensures learns { Learns (J.at part.old.seat.me.0.shape) i [] part.old.seat.me.0 part.new.seat.me.0 }
        ensures told { AllTrue T.is_true part.new.seat.me.0 }
    {
        self.table.shared.load::<Look<J>>(&mut part.seat, i)
    }

    /// Returns a part of the same name, which gave and saw nothing.
    pub fn split(&self, part: &mut Part<T>) -> Part<T>
        requires here { part.old.seat.table_id ≡ self.now.table.shared.table_id }
        ensures same { (part.new.seat.table_id ≡ part.old.seat.table_id)
            × (part.new.seat.me.0 ≡ part.old.seat.me.0) }
        ensures new { (result.seat.table_id ≡ part.old.seat.table_id)
            × (result.seat.me.0 ≡ newcomer part.old.seat.me.0) }
    {
        let seat = self.table.shared.split_seat::<Cut>(&mut part.seat);
        Part { seat }
    }

    /// Takes in what another part gave and saw.
    pub fn rejoin(&self, part: &mut Part<T>, other: Part<T>)
        requires here { part.old.seat.table_id ≡ self.now.table.shared.table_id }
        requires there { other.seat.table_id ≡ self.now.table.shared.table_id }
        ensures same { part.new.seat.table_id ≡ part.old.seat.table_id }
        ensures both { part.new.seat.me.0 ≡ both part.old.seat.me.0 other.seat.me.0 }
    {
        let Part { seat } = other;
        self.table.shared.join_seat::<Glue>(&mut part.seat, seat);
    }
}

impl<T: Truth> Board<T, MaxWord> {
    ghost use Rattle.std.specs.Prelude.{◌≡◌, ◌<◌, ◌-◌, ◌^◌, [], ◌∷◌, true, Some};
    ghost use Rattle.wl_hub.specs.Rule.{Learns, AllTrue};
    ghost use Rattle.wl_hub.specs.Places.{is_silence_at, silence_value};

    fn raise_as<K: Gift>(&self, part: &mut Part<T>, i: usize, until: u64, gift: Record)
        requires here { part.old.seat.table_id ≡ self.now.table.shared.table_id }
        requires inside { i < self.now.table.shared.key.words }
        requires place { is_silence_at part.old.seat.me.0.shape i gift ≡ true }
        requires value { (silence_value gift).word ≡ until }
        requires told { (n : _) → part.old.seat.me.0.name ≡ Some n → T.is_true n gift }
        requires pick { K.gift ≡ gift }
        ensures same { part.new.seat.table_id ≡ part.old.seat.table_id }
        ensures learns { Learns (is_silence_at part.old.seat.me.0.shape) i (gift ∷ [])
            part.old.seat.me.0 part.new.seat.me.0 }
        ensures told { AllTrue T.is_true part.new.seat.me.0 }
    {
        let _ = gift;
        self.table
            .shared
            .fetch_max::<Give<MaxWord, K>>(&mut part.seat, i, until);
    }

    /// Gives a silence to its word.
    pub fn raise(&self, part: &mut Part<T>, i: usize, until: u64, gift: Record)
        requires here { part.old.seat.table_id ≡ self.now.table.shared.table_id }
        requires inside { i < self.now.table.shared.key.words }
        requires place { is_silence_at part.old.seat.me.0.shape i gift ≡ true }
        requires value { (silence_value gift).word ≡ until }
        requires told { (n : _) → part.old.seat.me.0.name ≡ Some n → T.is_true n gift }
        ensures same { part.new.seat.table_id ≡ part.old.seat.table_id }
        ensures learns { Learns (is_silence_at part.old.seat.me.0.shape) i (gift ∷ [])
            part.old.seat.me.0 part.new.seat.me.0 }
        ensures told { AllTrue T.is_true part.new.seat.me.0 }
    {
        self.raise_as::<Brand>(part, i, until, gift);
    }
}

impl<T: Truth> Board<T, FlatWord> {
    ghost use Rattle.std.specs.Prelude.{◌≡◌, ◌<◌, ◌-◌, ◌^◌, [], ◌∷◌, true, Some};
    ghost use Rattle.wl_hub.specs.Rule.{Learns, AllTrue};
    ghost use Rattle.wl_hub.specs.Places.{is_edge_at, edge_value};
    ghost use Rattle.wl_lattice.specs.declared.FlatWord.TheVariants.{Value, Clash};

    fn claim_as<K: Gift>(&self, part: &mut Part<T>, i: usize, tick: u64, gift: Record)
        requires here { part.old.seat.table_id ≡ self.now.table.shared.table_id }
        requires inside { i < self.now.table.shared.key.words }
        requires place { is_edge_at part.old.seat.me.0.shape i gift ≡ true }
        requires value { edge_value gift ≡ Value tick }
        requires small { tick < 2 ^ 64 - 1 }
        requires told { (n : _) → part.old.seat.me.0.name ≡ Some n → T.is_true n gift }
        requires pick { K.gift ≡ gift }
        ensures same { part.new.seat.table_id ≡ part.old.seat.table_id }
        ensures learns { Learns (is_edge_at part.old.seat.me.0.shape) i (gift ∷ [])
            part.old.seat.me.0 part.new.seat.me.0 }
        ensures told { AllTrue T.is_true part.new.seat.me.0 }
    {
        let _ = gift;
        let number = value_number(tick);
        let found = self
            .table
            .shared
            .compare_exchange::<Claim<K>>(&mut part.seat, i, 0, number);
        if found == 0 || found == number || found == CLASH {
            return;
        }
        self.table
            .shared
            .fetch_max::<Give<FlatWord, K>>(&mut part.seat, i, CLASH);
    }

    /// Gives an edge to its word.
    pub fn claim(&self, part: &mut Part<T>, i: usize, tick: u64, gift: Record)
        requires here { part.old.seat.table_id ≡ self.now.table.shared.table_id }
        requires inside { i < self.now.table.shared.key.words }
        requires place { is_edge_at part.old.seat.me.0.shape i gift ≡ true }
        requires value { edge_value gift ≡ Value tick }
        requires small { tick < 2 ^ 64 - 1 }
        requires told { (n : _) → part.old.seat.me.0.name ≡ Some n → T.is_true n gift }
        ensures same { part.new.seat.table_id ≡ part.old.seat.table_id }
        ensures learns { Learns (is_edge_at part.old.seat.me.0.shape) i (gift ∷ [])
            part.old.seat.me.0 part.new.seat.me.0 }
        ensures told { AllTrue T.is_true part.new.seat.me.0 }
    {
        self.claim_as::<Brand>(part, i, tick, gift);
    }

    fn clash_as<K: Gift>(&self, part: &mut Part<T>, i: usize, gift: Record)
        requires here { part.old.seat.table_id ≡ self.now.table.shared.table_id }
        requires inside { i < self.now.table.shared.key.words }
        requires place { is_edge_at part.old.seat.me.0.shape i gift ≡ true }
        requires value { edge_value gift ≡ Clash }
        requires told { (n : _) → part.old.seat.me.0.name ≡ Some n → T.is_true n gift }
        requires pick { K.gift ≡ gift }
        ensures same { part.new.seat.table_id ≡ part.old.seat.table_id }
        ensures learns { Learns (is_edge_at part.old.seat.me.0.shape) i (gift ∷ [])
            part.old.seat.me.0 part.new.seat.me.0 }
        ensures told { AllTrue T.is_true part.new.seat.me.0 }
    {
        let _ = gift;
        self.table
            .shared
            .fetch_max::<Give<FlatWord, K>>(&mut part.seat, i, CLASH);
    }

    /// Gives a clash to its word.
    pub fn clash(&self, part: &mut Part<T>, i: usize, gift: Record)
        requires here { part.old.seat.table_id ≡ self.now.table.shared.table_id }
        requires inside { i < self.now.table.shared.key.words }
        requires place { is_edge_at part.old.seat.me.0.shape i gift ≡ true }
        requires value { edge_value gift ≡ Clash }
        requires told { (n : _) → part.old.seat.me.0.name ≡ Some n → T.is_true n gift }
        ensures same { part.new.seat.table_id ≡ part.old.seat.table_id }
        ensures learns { Learns (is_edge_at part.old.seat.me.0.shape) i (gift ∷ [])
            part.old.seat.me.0 part.new.seat.me.0 }
        ensures told { AllTrue T.is_true part.new.seat.me.0 }
    {
        self.clash_as::<Brand>(part, i, gift);
    }
}
