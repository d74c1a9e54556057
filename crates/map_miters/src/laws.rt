ghost use Rattle.std.specs.Prelude.{ℕ, List};
ghost use Rattle.aig_graph.specs.Circuits.{Netlist};
ghost use Rattle.map_miters.specs.Laws.{GiveStreams, MapsAreNeverOne, MapsMeetQuestions, MitersAnswer, ShowsAgreement};

/// Let a map of states have the answers that it should, in every state and under all inputs. Then
/// the product machine by it passes the five checks for the model, with which it shares all inputs
/// and latches.
pub fn agreement_law()
    ensures { (c d m p w : Netlist) → ShowsAgreement c d m p w }
{}

/// A miter that is never 1 says that the map has the four answers that it should. That holds
/// whoever made the map, and whatever solver found no solution. A map that has them shows that both
/// circuits have equal streams. A map of states by which free latches stay has them, as each that a
/// retiming makes: its miter is never 1.
pub fn answers_law()
    ensures asked { (c d m r : Netlist) → MitersAnswer c d m r }
    ensures streams { (c d m : Netlist) → GiveStreams c d m }
    ensures maps { (c d m : Netlist) (kept : List ℕ) → MapsMeetQuestions c d kept m }
    ensures never { (c d m r : Netlist) (kept : List ℕ) → MapsAreNeverOne c d kept m r }
{}
