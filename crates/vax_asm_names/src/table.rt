// The table of names.

ghost use Rattle.std.specs.Prelude.{◌≡◌, ◌<◌, ◌+◌, ◌++◌, ◌∷◌, [], Some, None, IfOk, OnOk, OnErr, IfSome, is_some, length, map, true, false};
ghost use Rattle.vax_asm_names.specs.ByName.{by_name, with_entry};
ghost use Rattle.vax_asm_names.specs.Names.{no_locals, no_names, with_name, labelled, assigned, assuming, linked, name_at, with_change, changed, used_locally, labelled_locally, locals_of, with_local, in_next_block, in_block};
ghost use Rattle.vax_asm_names.specs.Content.{name_of, names_in};
ghost use Rattle.vax_asm_names.specs.Journal.{IsSound};
ghost use Rattle.vax_asm_names.specs.View.{marked_names, names_of, Alters, Becomes, KeepsMark, Labels};
ghost use Rattle.vax_asm_names.specs.Names.{with_use};

use crate::journal::{Journal, Step, note_added, note_change};
use crate::types::{Content, DefinedBy, Duplicate, LabelError, Linkage, Local, Name, NameTable};
use std::alloc::Global;
use std::collections::BTreeMap;
use vax_space::NoMemory;

fn copied(alloc: Global, text: &[u8]) -> Result<Vec<u8>, NoMemory>
    ensures { IfOk result (λ v. v.items ≡ text.now) }
{
    text.to_vec(alloc).map_err(|_| NoMemory)
}

/// Puts something at a name.
#[tactic(auto, using(crate::proofs::Maps::name_updates))]
fn put<X: Drop>(
    alloc: Global,
    map: &mut BTreeMap<Vec<u8>, X>,
    text: &[u8],
    what: X,
) -> Result<(), NoMemory>
    ensures put { OnOk result (by_name map.new
        ≡ with_entry text.now (Some what) (by_name map.old)) }
    ensures kept { OnErr result (by_name map.new ≡ by_name map.old) }
{
    let key = copied(alloc, text)?;
    match map.insert(key, what) {
        Ok(_) => Ok(()),
        Err(_) => Err(NoMemory),
    }
}

/// Adds a name behind the others.
fn add_last(names: &mut Vec<Name>, name: Name) -> Result<(), NoMemory>
    ensures added { OnOk result (names.new.items ≡ names.old.items ++ name ∷ []) }
    ensures kept { OnErr result (names.new.items ≡ names.old.items) }
{
    names.push(name).map_err(|_| NoMemory)
}

/// Adds a block without local labels behind the others.
#[tactic(auto, using(crate::proofs::Changing::block_added))]
fn add_block(alloc: Global, blocks: &mut Vec<BTreeMap<Vec<u8>, Local>>) -> Result<(), NoMemory>
    ensures blocks { OnOk result (map by_name blocks.new.items
        ≡ map by_name blocks.old.items ++ no_locals ∷ []) }
    ensures longer { OnOk result (length blocks.new.items ≡ length blocks.old.items + 1) }
    ensures kept { OnErr result (blocks.new.items ≡ blocks.old.items) }
{
    blocks.push(BTreeMap::new(alloc)).map_err(|_| NoMemory)
}

/// What a local label is once it is defined.
fn labelled(local: Option<Local>, fresh: usize) -> Result<Local, Duplicate>
    ensures { result ≡ labelled_locally fresh local }
{
    match local {
        None => Ok(Local {
            definition: fresh,
            defined: true,
        }),
        Some(local) if local.defined => Err(Duplicate),
        Some(local) => Ok(Local {
            definition: local.definition,
            defined: true,
        }),
    }
}

impl Name {
    fn label(&mut self) -> Result<(), Duplicate>
        ensures name { Becomes result
            (name_of self.old) (name_of self.new) (labelled (name_of self.old)) }
        ensures text { self.new.text ≡ self.old.text }
    {
        match self.defined_by {
            DefinedBy::Nothing => {
                self.defined_by = DefinedBy::Label;
                Ok(())
            }
            DefinedBy::Label | DefinedBy::Assignment => Err(Duplicate),
        }
    }

    fn assign(&mut self, fresh: usize) -> Result<(), Duplicate>
        ensures name { Becomes result
            (name_of self.old) (name_of self.new) (assigned fresh (name_of self.old)) }
        ensures text { self.new.text ≡ self.old.text }
    {
        match self.defined_by {
            DefinedBy::Nothing => {
                self.defined_by = DefinedBy::Assignment;
                Ok(())
            }
            DefinedBy::Assignment => {
                self.definition = fresh;
                Ok(())
            }
            DefinedBy::Label => Err(Duplicate),
        }
    }

    fn link(&mut self, linkage: Linkage)
        ensures name { name_of self.new ≡ linked linkage (name_of self.old) }
        ensures text { self.new.text ≡ self.old.text }
    {
        self.external = true;
        match linkage {
            Linkage::External => {}
            Linkage::Global => self.global = true,
            Linkage::Weak => {
                self.global = true;
                self.weak = true;
            }
        }
    }
}

impl Content {
    /// A name appears, with the number behind those of the others.
    #[tactic(auto, using(crate::proofs::Changing::name_added))]
    fn add(&mut self, alloc: Global, text: &[u8], definition: usize) -> Result<(), NoMemory>
        ensures names { OnOk result (names_in self.new
            ≡ with_name text.now definition (names_in self.old)) }
        ensures sound { IsSound (names_in self.old) → IsSound (names_in self.new) }
    {
        let name = Name {
            text: copied(alloc, text)?,
            definition,
            defined_by: DefinedBy::Nothing,
            global: false,
            external: self.assumes_external,
            weak: false,
        };
        let number = self.names.len();
        add_last(&mut self.names, name)?;
        put(alloc, &mut self.numbers, text, number)?;
        Ok(())
    }
}

impl NameTable {
    /// No names.
    #[tactic(auto, using(crate::proofs::Maps::nothing_named))]
    pub fn new(alloc: Global) -> NameTable
        ensures names { names_of result ≡ no_names }
        ensures unmarked { marked_names result ≡ None }
    {
        NameTable {
            content: Content {
                numbers: BTreeMap::new(alloc),
                names: Vec::new(alloc),
                masks: BTreeMap::new(alloc),
                first_block: BTreeMap::new(alloc),
                further_blocks: Vec::new(alloc),
                block: 1,
                assumes_external: true,
            },
            journal: Journal::new(alloc),
        }
    }

    /// The names get a mark as they are now, in place of an earlier one.
    pub fn mark(&mut self)
        ensures same { names_of self.new ≡ names_of self.old }
        ensures marked { marked_names self.new ≡ Some (names_of self.old) }
    {
        self.journal.mark();
    }

    /// Drops the mark.
    pub fn unmark(&mut self)
        ensures same { names_of self.new ≡ names_of self.old }
        ensures marked { marked_names self.new ≡ None }
    {
        self.journal.unmark();
    }

    /// Whether there is a mark.
    pub fn is_marked(&self) -> bool
        ensures { result ≡ is_some (marked_names self.now) }
    {
        self.journal.marked
    }

    /// Goes back to the mark, which is dropped then. The time is that of what changed since.
    ///
    /// False if there is no mark. The names are then as before.
    pub fn go_back(&mut self) -> bool
        ensures marked { result ≡ is_some (marked_names self.old) }
        ensures back { result ≡ true → marked_names self.old ≡ Some (names_of self.new) }
        ensures kept { result ≡ false → names_of self.new ≡ names_of self.old }
        ensures unmarked { marked_names self.new ≡ None }
    {
        if !self.journal.marked {
            return false;
        }
        self.journal.marked = false;
        self.content.undo_all(&mut self.journal.steps);
        true
    }

    /// The names so far, in the order in which they first appeared.
    pub fn names(&self) -> &[Name]
        ensures { map name_of result.now ≡ (names_of self.now).all }
    {
        &self.content.names
    }

    /// The number of a name in that order. None where it has not appeared.
    pub fn number(&self, text: &[u8]) -> Option<usize>
        ensures number { result ≡ (names_of self.now).numbers text.now }
        ensures within { IfSome result (λ i. i < length (names_of self.now).all) }
    {
        match self.content.numbers.get(text) {
            Some(number) => Some(*number),
            None => None,
        }
    }

    /// A name appears for the first time. Its first definition, which is to come, gets this number.
    pub fn add(&mut self, alloc: Global, text: &[u8], definition: usize) -> Result<(), NoMemory>
        ensures names { OnOk result (names_of self.new
            ≡ with_name text.now definition (names_of self.old)) }
        ensures mark { KeepsMark self.old self.new }
    {
        note_added(&mut self.journal, &self.content.numbers, text);
        if let Err(refused) = self.content.add(alloc, text, definition) {
            self.journal.unmark();
            return Err(refused);
        }
        Ok(())
    }

    /// A label defines a name: by the definition that earlier uses mean.
    ///
    /// [`Duplicate`] where the name has a definition; the names are then as before.
    #[tactic(auto, using(crate::proofs::Changing::one_becomes))]
    pub fn label(&mut self, number: usize) -> Result<(), Duplicate>
        requires { number < length (names_of self.old).all }
        ensures names { Alters (λ n. changed number n (labelled (name_at n.all number)))
            result self.old self.new }
        ensures mark { KeepsMark self.old self.new }
    {
        note_change(&mut self.journal, &self.content.names, number);
        self.content.names[number].label()
    }

    /// An assignment defines a name: the first one by the definition that earlier uses mean, and a later one by a fresh
    /// one, which has this number. The name tells which definition it is.
    ///
    /// [`Duplicate`] where the name is a label; the names are then as before.
    #[tactic(auto, using(crate::proofs::Changing::one_becomes))]
    pub fn assign(&mut self, number: usize, fresh: usize) -> Result<(), Duplicate>
        requires { number < length (names_of self.old).all }
        ensures names { Alters (λ n. changed number n (assigned fresh (name_at n.all number)))
            result self.old self.new }
        ensures mark { KeepsMark self.old self.new }
    {
        note_change(&mut self.journal, &self.content.names, number);
        self.content.names[number].assign(fresh)
    }

    /// The module says of a name that other modules may use it, or that one of them may define it, or need not. What it has
    /// said before stays.
    #[tactic(auto, using(crate::proofs::Changing::one_is_linked))]
    pub fn link(&mut self, number: usize, linkage: Linkage)
        requires { number < length (names_of self.old).all }
        ensures names { names_of self.new ≡ with_change number (names_of self.old)
            (linked linkage (name_at (names_of self.old).all number)) }
        ensures mark { KeepsMark self.old self.new }
    {
        note_change(&mut self.journal, &self.content.names, number);
        self.content.names[number].link(linkage);
    }

    /// Whether another module may define a name that appears from here on, where nothing more is said of it. At the start
    /// it may.
    pub fn assume_external(&mut self, assumes: bool)
        ensures names { names_of self.new ≡ assuming assumes (names_of self.old) }
        ensures mark { KeepsMark self.old self.new }
    {
        self.journal.unmark();
        self.content.assumes_external = assumes;
    }

    /// The local labels of the current block.
    #[tactic(auto, using(crate::proofs::Changing::block_seen))]
    fn labels(&self) -> &BTreeMap<Vec<u8>, Local>
        ensures { by_name result.now ≡ locals_of (names_of self.now) }
    {
        match self.content.block.checked_sub(2) {
            None if self.content.block == 0 => &self.content.masks,
            None => &self.content.first_block,
            Some(further) => &self.content.further_blocks[further],
        }
    }

    /// A local label of the block.
    pub fn local(&self, text: &[u8]) -> Option<Local>
        ensures { result ≡ locals_of (names_of self.now) text.now }
    {
        match self.labels().get(text) {
            Some(local) => Some(*local),
            None => None,
        }
    }

    #[tactic(auto, using(crate::proofs::Changing::label_put))]
    fn put_local(&mut self, alloc: Global, text: &[u8], local: Local) -> Result<(), NoMemory>
        ensures names { OnOk result (names_of self.new
            ≡ with_local text.now local (names_of self.old)) }
        ensures mark { KeepsMark self.old self.new }
    {
        self.journal.unmark();
        match self.content.block.checked_sub(2) {
            None if self.content.block == 0 => {
                put(alloc, &mut self.content.masks, text, local)?;
                Ok(())
            }
            None => {
                put(alloc, &mut self.content.first_block, text, local)?;
                Ok(())
            }
            Some(further) => {
                put(
                    alloc,
                    &mut self.content.further_blocks[further],
                    text,
                    local,
                )?;
                Ok(())
            }
        }
    }

    /// A local label is used. Where it appears for the first time in its block, its definition, which is to come, gets this number.
    pub fn use_local(&mut self, alloc: Global, text: &[u8], fresh: usize) -> Result<Local, NoMemory>
        ensures local { IfOk result (λ l. l
            ≡ used_locally fresh (locals_of (names_of self.old) text.now)) }
        ensures names { IfOk result (λ l. names_of self.new
            ≡ with_use text.now l (locals_of (names_of self.old) text.now) (names_of self.old)) }
        ensures mark { KeepsMark self.old self.new }
    {
        if let Some(local) = self.local(text) {
            return Ok(local);
        }
        let local = Local {
            definition: fresh,
            defined: false,
        };
        self.put_local(alloc, text, local)?;
        Ok(local)
    }

    /// A local label is defined: by the definition that earlier uses in its block mean, and otherwise by a fresh one, which
    /// has this number.
    ///
    /// [`LabelError::Duplicate`] where it is defined in the block, [`LabelError::NoMemory`] where memory is refused.
    pub fn label_local(
        &mut self,
        alloc: Global,
        text: &[u8],
        fresh: usize,
    ) -> Result<Local, LabelError>
        ensures names { Labels result text.now (names_of self.old)
            (names_of self.new) (labelled_locally fresh (locals_of (names_of self.old) text.now)) }
        ensures mark { KeepsMark self.old self.new }
    {
        let Ok(local) = labelled(self.local(text), fresh) else {
            return Err(LabelError::Duplicate);
        };
        match self.put_local(alloc, text, local) {
            Ok(()) => Ok(local),
            Err(NoMemory) => Err(LabelError::NoMemory),
        }
    }

    /// The number of the current block of local labels.
    pub fn block(&self) -> usize
        ensures { result ≡ (names_of self.now).block }
    {
        self.content.block
    }

    /// A block of local labels begins.
    pub fn begin_block(&mut self, alloc: Global) -> Result<(), NoMemory>
        ensures names { OnOk result (names_of self.new ≡ in_next_block (names_of self.old)) }
        ensures mark { KeepsMark self.old self.new }
    {
        add_block(alloc, &mut self.content.further_blocks)?;
        let block = self.content.block;
        self.journal.note(Step::Begun { block });
        self.content.block = self.content.further_blocks.len() + 1;
        Ok(())
    }

    /// The block of local labels with this number goes on, if there is one.
    pub fn resume_block(&mut self, block: usize)
        ensures names { names_of self.new ≡ in_block block (names_of self.old) }
        ensures mark { KeepsMark self.old self.new }
    {
        self.journal.unmark();
        if block <= self.content.further_blocks.len() + 1 {
            self.content.block = block;
        }
    }
}
