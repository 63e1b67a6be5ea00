// Want of memory: asks that are tried on a copy of a book.

mod trials;
