//! The laws of the history beside the state: the body of each function is empty, and its contract is
//! the law.

ghost use Rattle.trio_laws.specs.history.HistoryLaws.{
  HistoryBegins,
  HistoryGrows,
  HistoryIsLegal,
  OutIsLogged,
  ReplayIsKnown,
  ReplaysAgree,
  SettledNodes,
  StatesAreTrees,
  StepsAreIsolated,
};

/// A controller of an image that verifies begins recorded: with no entry, and the nodes of its image.
pub fn history_begins()
    ensures law { HistoryBegins }
{}

/// The log of what is recorded is legal from the nodes of the first image to those for which the state
/// stands, and has as many entries as the state counts.
pub fn history_is_legal()
    ensures law { HistoryIsLegal }
{}

/// Each step of a library that hands in what was given leaves all recorded: its entry is legal, the
/// state stands for the last nodes of the log, and the log replays to it.
pub fn history_grows()
    ensures law { HistoryGrows }
{}

/// Whatever a library hands in, its step changes the nodes within its grants alone, or it changes a mode
/// that is the library's to change.
pub fn steps_are_isolated()
    ensures law { StepsAreIsolated }
{}

/// Where no write grant is open, a state that is kept stands for just the nodes of its settled image, as
/// they are read of it.
pub fn settled_nodes()
    ensures law { SettledNodes }
{}

/// Each state that is kept stands for nodes that form one tree: each but the root in a live directory, in
/// which none but it has its name, and each found from the root.
pub fn states_are_trees()
    ensures law { StatesAreTrees }
{}

/// What is known of a state goes by the log that replays to it: so two such states agree in what is
/// settled, lent and out, and what a library has out is what the log says.
pub fn replays_agree()
    ensures known { ReplayIsKnown }
    ensures agree { ReplaysAgree }
    ensures out { OutIsLogged }
{}
