//! Texts of networks: how they are cut into tokens, which networks they are, and how networks are
//! printed.
#![tactic(auto)]

mod argument;
mod byte_class;
mod context;
mod delimiters;
mod described;
mod fault;
mod form;
mod form_body;
mod laws;
mod lexeme;
mod misplaced;
mod network;
mod operation;
mod print;
mod reader;
mod schedule;
mod text_mark;
mod token;
mod token_argument;
mod wrap_test;

pub use context::{Context, NamedNet};
pub use described::{Described, read_net};
pub use fault::{ReadFault, TextKind};
pub use laws::{
    forms_round_one_another_are_the_depth, networks_spelled_alike_are_the_same,
    networks_without_names_are_spelled_one_way, printed_networks_are_spelled,
    printed_operations_are_read, printed_pieces_are_cut_into_them, stops_are_first_faults,
    texts_are_cut_from_the_front, texts_of_networks_are_taken, texts_stop_at_their_end,
};
pub use network::network as network_ahead;
pub use print::{print_described, print_net, print_plan};
pub use reader::Reader;
pub use text_mark::TextMark;
pub use token::{PlacedToken, Token};
