// What holds of the words of this crate's contracts, whatever the call.
ghost use Rattle.ff_text.specs.CutLaws.{CutsFrontFirst, StopsAtItsEnd};
ghost use Rattle.ff_text.specs.DepthLaw.{RoomIsDepth};
ghost use Rattle.ff_text.specs.PrintedOperations.{PrintedOpIsRead, PrintedOpIsSpelling};
ghost use Rattle.ff_text.specs.Printing.{PrintedIsCut};
ghost use Rattle.ff_text.specs.PrintLaw.{PrintedNetsAreSpelled, PrintedNetsAreReadAgain};
ghost use Rattle.ff_text.specs.SpellingLaw.{SpellingIsOfOneNet, SpelledWithoutNames};
ghost use Rattle.ff_text.specs.WantLaws.{TextsAreTaken, StopsAreFaults};

use ff_rec::printed_numbers_are_read;

/// What stands at the front of a text comes first, and then what is cut from the bytes behind it.
pub fn texts_are_cut_from_the_front()
    ensures { CutsFrontFirst }
{}

/// `Stop` is the last spot of each text, at its length, and no other.
pub fn texts_stop_at_their_end()
    ensures { StopsAtItsEnd }
{}

/// Pieces that are printed apart are cut into the tokens that they were.
pub fn printed_pieces_are_cut_into_them()
    ensures { PrintedIsCut }
{
    printed_numbers_are_read();
}

/// What spells a network is taken where a network is wanted.
pub fn texts_of_networks_are_taken()
    ensures { TextsAreTaken }
{}

/// Where the machine of wants stops is the first fault of a text.
pub fn stops_are_first_faults()
    ensures { StopsAreFaults }
{}

/// How many forms stand round one another in a network is its depth less one.
pub fn forms_round_one_another_are_the_depth()
    ensures { RoomIsDepth }
{}

/// No two networks are spelled by the same tokens, their nodes' states left aside: each node is one
/// before its first record.
pub fn networks_spelled_alike_are_the_same()
    ensures { SpellingIsOfOneNet }
{}

/// Where no word stands for a network, what spells a network is its spelling alone.
pub fn networks_without_names_are_spelled_one_way()
    ensures { SpelledWithoutNames }
{}

/// A printed network is cut into the tokens that spell it, and read again.
pub fn printed_networks_are_spelled()
    ensures spelled { PrintedNetsAreSpelled }
    ensures read_again { PrintedNetsAreReadAgain }
{
    printed_pieces_are_cut_into_them();
}

/// What is printed of an operation spells it alone, as a network, where no text among its arguments
/// holds a quote.
pub fn printed_operations_are_read()
    ensures tokens { PrintedOpIsSpelling }
    ensures read { PrintedOpIsRead }
{
    printed_pieces_are_cut_into_them();
}
