// Facts about every score. These functions do nothing; their contracts state the facts.
ghost use Rattle.std.specs.Prelude.{◌≡◌, List, Ok};
ghost use Rattle.cs_base.specs.Lines.{Excerpt};
ghost use Rattle.cs_score.specs.{declared.statement.ScoreStmt.ScoreStmt, Sizes.HaveOneSize, Statements.score_of};
ghost use Rattle.cs_score.specs.Plain.{AllFit, CommentOrByte, plain_by, plain_of, text_of};

/// If a text is cut into comments and bytes outside comments, its plain form has a space instead of each byte
/// of a comment.
pub fn comments_are_spaces()
    ensures { (pieces : List CommentOrByte) → AllFit pieces → plain_of (text_of pieces) ≡ plain_by pieces }
{}

/// All tables with the same number have the same size, in the complete score: the size of the first of them.
pub fn tables_keep_one_size()
    ensures { (text : Excerpt) (statements : List ScoreStmt) → score_of text ≡ Ok statements → HaveOneSize statements }
{}
