// What no clause says: that memory is there, that threads come to their end, and that the calls work together.
mod devices;
mod meeting;
mod runs;
mod short;
mod slow;
mod wraps;
