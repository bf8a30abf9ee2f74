//! Laws of boards: which lists of them are true, as a journal grows.
ghost use Rattle.ada_laws.specs.Showing.{NoBoardsAreTrue, BoardsStayTrue, NewBoardsAreTrue, AnswersAreShown, TrueBoardsAreFew};

/// Boards that are true of a journal are true of every lawful journal that begins with it.
pub fn boards_stay_true()
    ensures none { NoBoardsAreTrue }
    ensures more { BoardsStayTrue }
{}

/// Behind boards that are true, the board of a later settled journal may be shown, as that of what a
/// request leads to.
pub fn new_boards_are_true()
    ensures later { NewBoardsAreTrue }
    ensures answers { AnswersAreShown }
{}

/// A true list has at most 65,537 boards.
#[tactic(auto, using(crate::proofs::boards::ShowingLaws::true_boards_are_few))]
pub fn true_boards_are_few()
    ensures { TrueBoardsAreFew }
{}
