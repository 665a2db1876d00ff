//! Laws of the definitions, as contracts.
ghost use Rattle.std.specs.Prelude.{◌≡◌, ◌∷◌, [], ℕ, List, codes, map, None};
ghost use Rattle.ato_ast.specs.declared.blocks.File.{File};
ghost use Rattle.ato_lexer.specs.Tokens.{AreTokens};
ghost use Rattle.ato_parser.specs.Faults.{IsTree};
ghost use Rattle.ato_parser.specs.Tokens.{EndsOnce};
ghost use Rattle.ato_files.specs.declared.program.BlockInfo.{BlockInfo};
ghost use Rattle.ato_files.specs.declared.program.Program.{Program};
ghost use Rattle.ato_files.specs.declared.program.SourceFile.{SourceFile};
ghost use Rattle.ato_files.specs.Faults.{TheLeastIsFirst};
ghost use Rattle.ato_files.specs.Files.{AreFiles, NearerFirst, Reached, name_of};
ghost use Rattle.ato_files.specs.Library.{library_names, library_text, library_tokens};
ghost use Rattle.ato_files.specs.Lineages.{IsLineage, LineagesEnd, lineage};
ghost use Rattle.ato_files.specs.Lists.{Among};
ghost use Rattle.ato_files.specs.Loading.{Held, IsStart, Loaded, all_files};
ghost use Rattle.ato_files.specs.NameFaults.{name_fault};
ghost use Rattle.ato_files.specs.Programs.{AreBlocks, Failure, IsProgram, IsReached, Named, NamesDiffer, Stands};

/// At most one fault stands, and the files that are read with it are the same.
pub fn one_fault()
    ensures { (held : Held) (entry : List ℕ) (f g : Failure) → Stands held entry f → Stands held entry g → f ≡ g }
{}

/// A project with a program has no fault.
pub fn none_with_program()
    ensures { (held : Held) (entry : List ℕ) (p : Program) (f : Failure) → IsProgram held entry p → Stands held entry f → ⊥ }
{}

/// A project has one program at most.
pub fn one_program()
    ensures { (held : Held) (entry : List ℕ) (p q : Program) → IsProgram held entry p → IsProgram held entry q → p ≡ q }
{}

/// The text of the library, as file 0 over the names that each table begins with, has the tokens and the names that stand for it.
pub fn library_has_tokens()
    ensures { AreTokens library_text (record { 0 = 0 }) (codes "abs" ∷ codes "max" ∷ codes "min" ∷ []) library_names library_tokens }
{}

/// The library's tokens end once and have a tree, so loading has a start; and its names have no fault.
pub fn library_has_tree()
    ensures ends { EndsOnce library_tokens }
    ensures tree { (f : File) × IsTree library_tokens f }
    ensures start { (l : Loaded) × IsStart l }
    ensures sound { (l : Loaded) → IsStart l → name_fault (all_files l) ≡ None }
{}

/// Where a project is read to its end, its files are all those that chains of imports lead to, and no others.
pub fn loads_all()
    ensures files { (held : Held) (entry : List ℕ) (l : Loaded) → IsReached held entry (Named l) → AreFiles entry l.files }
    ensures there { (entry : List ℕ) (files : List SourceFile) (name : List ℕ) → AreFiles entry files → Reached entry files name → Among name (map name_of files) }
{}

/// In load order, nearer files come first.
pub fn nearer_first()
    ensures { NearerFirst }
{}

/// A block has a lineage exactly where its ancestors end, and one at most.
pub fn lineages_end()
    ensures { (files : List SourceFile) (block : ℕ) → LineagesEnd files block }
{}

/// Where names have no fault, each block has its lineage, and so there is what a program keeps of the blocks.
pub fn sound_names_have_blocks()
    ensures lineages { (files : List SourceFile) → name_fault files ≡ None → (number : ℕ) → IsLineage files number (lineage files number) }
    ensures blocks { (files : List SourceFile) → name_fault files ≡ None → (blocks : List BlockInfo) × AreBlocks files blocks }
{}

/// No text stands twice in the table of a program's names.
pub fn names_differ()
    ensures { (held : Held) (entry : List ℕ) (p : Program) → IsProgram held entry p → NamesDiffer p.names }
{}

/// The least fault is one of the faults, and none comes before it.
pub fn least_is_first()
    ensures { TheLeastIsFirst }
{}
