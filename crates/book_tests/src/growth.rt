// Want of memory: bookings, and what is made of a book.

mod books;
