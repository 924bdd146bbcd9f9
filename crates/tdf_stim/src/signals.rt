//! The columns of a table that drive.

ghost use Rattle.std.specs.Option.{option_or};
ghost use Rattle.std.specs.Prelude.{◌≡◌, ◌∷◌, [], ◌++◌, ℕ, List, None, if◌then◌else◌, not, is_some, filter, IfOk, OnOk, map, option_map};
ghost use Rattle.tdf_lang_tree.specs.Views.{pure_tree};
ghost use Rattle.tdf_stim.specs.Signals.{source_named};
ghost use Rattle.tdf_stim.specs.machine.Maps.{found_source, found_type, put, seen, source_at, source_by, source_of_member};
ghost use Rattle.tdf_tables.specs.Words.{words_of};

use crate::types::Types;
use indexmap::IndexMap;
use std::alloc::Global;
use tdf_base::{Memory, Name};
use tdf_lang_tree::{Lit, Member, Shape, Tree};
use tdf_tables::cut_word;

/// An event signal: its shape and its starting literal.
#[derive(Clone, Copy)]
pub(crate) struct Signal<'t> {
    shape: Shape,
    start: &'t Lit,
}

/// What a column drives: the signal that has its label.
#[derive(Clone, Copy)]
pub(crate) struct Source<'t> {
    pub(crate) label: &'t [u8],
    pub(crate) shape: Shape,
    pub(crate) start: &'t Lit,
}

/// Event signals, each found by its name; of equal names the first stands.
#[derive(Drop)]
struct Signals<'t> {
    map: IndexMap<&'t [u8], Signal<'t>>,
}

/// The columns of a table: what each drives, and the labels of those that are ignored.
#[derive(Drop)]
pub(crate) struct Columns<'t> {
    pub(crate) sources: Vec<Option<Source<'t>>>,
    pub(crate) ignored: Vec<Name>,
}

impl<'t> Signals<'t> {
    /// No signal.
    fn new(alloc: Global) -> Signals<'t>
        ensures { (label : List ℕ) → found_source result label ≡ None }
    {
        Signals {
            map: IndexMap::new(alloc),
        }
    }

    /// The signal that has this name.
    fn find(&self, label: &[u8]) -> Option<Signal<'t>>
        ensures { option_map (source_at label.now) result ≡ found_source self.now label.now }
    {
        match self.map.get(label) {
            None => None,
            Some(signal) => Some(*signal),
        }
    }

    /// One signal more, where its name is new.
    fn put(&mut self, name: &'t [u8], signal: Signal<'t>) -> Result<(), Memory>
        ensures { OnOk result ((other : List ℕ) → found_source self.new other
            ≡ put name.entry.now (source_at other signal.entry) other (found_source self.old other)) }
    {
        match self.find(name) {
            Some(_) => Ok(()),
            None => {
                self.map.insert(name, signal)?;
                Ok(())
            }
        }
    }

    #[tactic(auto, using(crate::proofs::Maps::map_laws))]
    /// The event signal that a line declares, if it does.
    fn add(&mut self, types: &Types, member: &'t Member) -> Result<(), Memory>
        ensures { OnOk result ((other : List ℕ) → found_source self.new other
            ≡ option_or (found_source self.old other)
            (source_of_member (found_type types.now) other member.entry.now)) }
    {
        match member {
            Member::DeSignal {
                name,
                format,
                start,
                ..
            } => {
                let shape = types.shape(format);
                self.put(name.as_bytes(), Signal { shape, start })
            }
            _ => Ok(()),
        }
    }

    /// The event signals among these lines.
    fn of(alloc: Global, types: &Types, members: &'t [Member]) -> Result<Signals<'t>, Memory>
        ensures { IfOk result (λ signals. (label : List ℕ)
            → found_source signals label ≡ source_by (found_type types.now) members.entry.now label) }
    {
        let mut signals = Signals::new(alloc);
        for member in members {
            signals.add(types, member)?;
        }
        Ok(signals)
    }

    /// The event signals of `top`.
    fn of_tree(alloc: Global, tree: &'t Tree) -> Result<Signals<'t>, Memory>
        ensures { IfOk result (λ signals. (label : List ℕ)
            → found_source signals label ≡ source_named (pure_tree tree.entry.now) label) }
    {
        let types = Types::of(alloc, &tree.globals)?;
        Signals::of(alloc, &types, &tree.top.members)
    }
}

impl<'t> Columns<'t> {
    /// One column more.
    fn add(
        &mut self,
        alloc: Global,
        label: &'t [u8],
        found: Option<Signal<'t>>,
    ) -> Result<(), Memory>
        ensures sources { OnOk result (map seen self.new.sources.items
            ≡ map seen self.old.sources.items ++ option_map (source_at label.entry.now) found.entry ∷ []) }
        ensures ignored { OnOk result (self.new.ignored.items ≡ self.old.ignored.items
            ++ (if is_some found.entry then [] else label.entry.now ∷ [])) }
    {
        match found {
            Some(signal) => {
                self.sources.push(Some(Source {
                    label,
                    shape: signal.shape,
                    start: signal.start,
                }))?;
                Ok(())
            }
            None => {
                self.ignored.push(Name::copied(alloc, label)?)?;
                self.sources.push(None)?;
                Ok(())
            }
        }
    }

    /// The columns that have these labels, by the signals that they may drive.
    fn by(alloc: Global, signals: &Signals<'t>, labels: &'t [u8]) -> Result<Columns<'t>, Memory>
        ensures sources { IfOk result (λ columns. map seen columns.sources.items
            ≡ map (found_source signals.now) (words_of labels.entry.now)) }
        ensures ignored { IfOk result (λ columns. columns.ignored.items
            ≡ filter (λ label. not (is_some (found_source signals.now label))) (words_of labels.entry.now)) }
    {
        let mut columns = Columns {
            sources: Vec::new(alloc),
            ignored: Vec::new(alloc),
        };
        let mut rest = labels;
        while let Some((label, after)) = cut_word(rest) {
            columns.add(alloc, label, signals.find(label))?;
            rest = after;
        }
        Ok(columns)
    }

    /// The columns that have these labels, each after one space.
    ///
    /// # Errors
    /// Out of memory.
    pub(crate) fn of(alloc: Global, tree: &'t Tree, labels: &'t [u8]) -> Result<Columns<'t>, Memory>
        ensures sources { IfOk result (λ columns. map seen columns.sources.items
            ≡ map (source_named (pure_tree tree.entry.now)) (words_of labels.entry.now)) }
        ensures ignored { IfOk result (λ columns. columns.ignored.items
            ≡ filter (λ label. not (is_some (source_named (pure_tree tree.entry.now) label)))
            (words_of labels.entry.now)) }
    {
        let signals = Signals::of_tree(alloc, tree)?;
        Columns::by(alloc, &signals, labels)
    }
}
