//! Nodes and occurrences, one behind another.
ghost use Rattle.std.specs.Prelude.{◌≡◌, ◌++◌, [], ◌∷◌, ℕ, List, length, map, option_to_list, Some, None, IfOk, OnOk, slice_get};
ghost use Rattle.std.specs.List.{flat_map};
ghost use Rattle.ato_files.specs.declared.program.SourceFile.{SourceFile};
ghost use Rattle.ato_files.specs.Members.{Kind};
ghost use Rattle.ato_ast.specs.declared.names.Named.{Named};
ghost use Rattle.ato_instance_tree.specs.Kept.{located_of};
ghost use Rattle.ato_instance_tree.specs.Members.{pin, named};
ghost use Rattle.ato_instance_tree.specs.Order.{Spot, leaf, made_at};
ghost use Rattle.ato_instance_tree.specs.Types.{type_kind, type_stmts};
ghost use Rattle.ato_instance_tree.specs.Walk.{type_at};
ghost use Rattle.ato_elab.specs.Growing.{IsLeafKind, IsPut, IsSoFar, occ_of};
ghost use Rattle.ato_elab.specs.Placing.{IsFresh};

use crate::built::Built;
use crate::places::Places;
use ato_base::{List, Name, NameTable, NoMemory, Text};
use ato_instance_tree::{Node, NodeKind, Occurrence, StmtAt};
use std::alloc::Global;

/// A number as an u32. Where it is larger there is no memory.
pub(crate) fn small(number: usize) -> Result<u32, NoMemory>
    ensures { IfOk result (λ same. same ≡ number) }
{
    if number > 0xffff_ffff {
        return Err(NoMemory);
    }
    Ok(number as u32)
}

/// A copy of a name's text. Each name of a program stands in its table; of another one there is no memory.
pub(crate) fn name_text(alloc: Global, names: &NameTable, name: Name) -> Result<Text, NoMemory>
    ensures { IfOk result (λ text. slice_get names.now name.0 ≡ Some text) }
{
    match names.text(name) {
        Some(text) => Text::copy(alloc, text),
        None => Err(NoMemory),
    }
}

/// A copy of a label. Each source is a text, and so is each label of it; of other bytes there is no memory.
fn label_text(alloc: Global, label: &[u8]) -> Result<Text, NoMemory>
    ensures { IfOk result (λ text. text ≡ label.now) }
{
    match str::from_utf8(label) {
        Ok(text) => Text::copy(alloc, text),
        Err(_) => Err(NoMemory),
    }
}

/// Puts the statements of the type of the instance of a number behind other occurrences.
fn push_occurrences(
    occurrences: &mut List<Occurrence>,
    number: u32,
    statements: &[StmtAt<'_>],
) -> Result<(), NoMemory>
    ensures { OnOk result (occurrences.new ≡ occurrences.old ++ map (occ_of number) statements.now) }
{
    for at in statements {
        occurrences.push(Occurrence {
            node: number,
            block: at.block,
            line: at.line,
            part: at.part,
        })?;
    }
    Ok(())
}

impl Built {
    /// A tree without nodes. It takes no memory.
    pub(crate) fn new(alloc: Global) -> Built
        ensures { (files : List SourceFile) (names : List (List ℕ)) (entry : ℕ) → IsSoFar files names entry [] [] result }
    {
        Built {
            nodes: List::new(alloc),
            occurrences: List::new(alloc),
            places: Places::new(alloc),
        }
    }

    /// Puts the root, an instance of this type, first.
    pub(crate) fn put_root(
        &mut self,
        alloc: Global,
        kind: NodeKind,
        block: u32,
    ) -> Result<(), NoMemory>
        ensures { OnOk result ((files : List SourceFile) (names : List (List ℕ)) → kind ≡ type_kind files block → IsSoFar files names block [] [] self.old → IsSoFar files names block (made_at [] ∷ []) [] self.new) }
    {
        self.nodes.push(Node {
            kind,
            name: Text::new(alloc),
            parent: None,
            block: Some(block),
        })?;
        Ok(())
    }

    /// Puts a pin into the instance of a number.
    pub(crate) fn put_pin(
        &mut self,
        alloc: Global,
        under: u32,
        label: &[u8],
    ) -> Result<(), NoMemory>
        ensures { OnOk result ((files : List SourceFile) (names : List (List ℕ)) (entry : ℕ) (done : List Spot) (looked : List (List ℕ)) (path : List ℕ) → IsSoFar files names entry done looked self.old → slice_get done under ≡ Some (made_at path) → IsSoFar files names entry (done ++ leaf path (pin label.now) ∷ []) looked self.new) }
    {
        let name = label_text(alloc, label)?;
        self.nodes.push(Node {
            kind: NodeKind::Pin,
            name,
            parent: Some(under),
            block: None,
        })?;
        Ok(())
    }

    /// Puts a node of a name into the instance of a number, and gives the node's number.
    fn put(
        &mut self,
        alloc: Global,
        names: &NameTable,
        under: u32,
        name: Name,
        kind: NodeKind,
        block: Option<u32>,
    ) -> Result<u32, NoMemory>
        ensures number { IfOk result (λ number. number ≡ length self.old.nodes) }
        ensures put { OnOk result (IsPut names.now under name.0 kind block self.old self.new) }
    {
        let number = small(self.nodes.len())?;
        let text = name_text(alloc, names, name)?;
        self.nodes.push(Node {
            kind,
            name: text,
            parent: Some(under),
            block,
        })?;
        self.places.put(under, name.0, number)?;
        Ok(number)
    }

    /// Puts a signal or a parameter into the instance of a number.
    pub(crate) fn put_named(
        &mut self,
        alloc: Global,
        names: &NameTable,
        under: u32,
        name: Name,
        kind: NodeKind,
    ) -> Result<(), NoMemory>
        ensures { OnOk result ((files : List SourceFile) (entry : ℕ) (done : List Spot) (looked : List (List ℕ)) (path : List ℕ) (n : Named) (k : Kind) → n.name ≡ name → IsLeafKind k kind → IsSoFar files names.now entry done looked self.old → slice_get done under ≡ Some (made_at path) → IsSoFar files names.now entry (done ++ leaf path (named n k) ∷ []) looked self.new) }
    {
        self.put(alloc, names, under, name, kind, None)?;
        Ok(())
    }

    /// Puts an instance of a type into the instance of a number, and gives its number.
    pub(crate) fn put_instance(
        &mut self,
        alloc: Global,
        names: &NameTable,
        under: u32,
        name: Name,
        kind: NodeKind,
        block: u32,
    ) -> Result<u32, NoMemory>
        ensures number { IfOk result (λ number. (files : List SourceFile) (entry : ℕ) (done : List Spot) (looked : List (List ℕ)) → IsSoFar files names.now entry done looked self.old → number ≡ length done) }
        ensures grown { OnOk result ((files : List SourceFile) (entry : ℕ) (done : List Spot) (looked : List (List ℕ)) (path : List ℕ) → type_at files entry (name.0 ∷ path) ≡ Some block → kind ≡ type_kind files block → IsSoFar files names.now entry done looked self.old → slice_get done under ≡ Some (made_at path) → IsFresh done (made_at (name.0 ∷ path)) → IsSoFar files names.now entry (done ++ made_at (name.0 ∷ path) ∷ []) looked self.new) }
    {
        let number = self.put(alloc, names, under, name, kind, Some(block))?;
        Ok(number)
    }

    /// Puts the statements of the type of the instance of a number behind the other occurrences.
    pub(crate) fn look(&mut self, number: u32, statements: &[StmtAt<'_>]) -> Result<(), NoMemory>
        ensures { OnOk result ((files : List SourceFile) (names : List (List ℕ)) (entry : ℕ) (done : List Spot) (looked : List (List ℕ)) (path : List ℕ) → IsSoFar files names entry done looked self.old → slice_get done number ≡ Some (made_at path) → map located_of statements.now ≡ flat_map (type_stmts files) (option_to_list (type_at files entry path)) → IsSoFar files names entry done (looked ++ path ∷ []) self.new) }
    {
        push_occurrences(&mut self.occurrences, number, statements)?;
        Ok(())
    }
}
