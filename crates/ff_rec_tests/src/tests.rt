// What no clause says: that the calls succeed while memory is there, and that the clauses mean these bytes.
mod cmp;
mod field;
mod line_reader;
mod number;
mod pieces;
mod record;
mod records;
