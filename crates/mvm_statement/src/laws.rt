ghost use Rattle.std.specs.Prelude.{◌≡◌, ℕ, List, [], ◌∷◌, ◌++◌, replicate, true, Some, None, Ok};
ghost use Rattle.std.specs.List.{list_all};
ghost use Rattle.mvm_statement.specs.Tokens.{is_printable};
ghost use Rattle.mvm_statement.specs.Statements.{line_says, text_of, is_good};
ghost use Rattle.mvm_statement.specs.declared.statement.Statement.{Statement};

/// A law over all statements that can be written: what their lines say.
pub fn statement_law()
    // What is written is read again.
    ensures back { (s : Statement) → is_good s ≡ true → line_says (text_of s) ≡ Ok (Some s) }
    // Also behind blanks,
    ensures indented { (s : Statement) (depth : ℕ) → is_good s ≡ true → line_says (replicate depth 32 ++ text_of s) ≡ Ok (Some s) }
    // and with a comment behind it.
    ensures remarked { (s : Statement) (depth : ℕ) (remark : List ℕ) → is_good s ≡ true → list_all is_printable remark ≡ true → line_says (replicate depth 32 ++ (text_of s ++ 32 ∷ 59 ∷ 32 ∷ remark)) ≡ Ok (Some s) }
    // A line that is written has printable ASCII characters alone, and so no end of a line.
    ensures printable { (s : Statement) → is_good s ≡ true → list_all is_printable (text_of s) ≡ true }
    // An empty line says nothing, and so does a comment.
    ensures empty { line_says [] ≡ Ok None }
    ensures comment { (remark : List ℕ) → list_all is_printable remark ≡ true → line_says (59 ∷ 32 ∷ remark) ≡ Ok None }
{}
