ghost use Rattle.book_picture.specs.Laws.{PictureShowsHour};

/// A picture has exactly one mark for each transmission that begins in its hour, at the place and as wide as the definition says, and
/// no other: of every book and every moment at which an hour opens.
pub fn law_picture_shows_hour()
    ensures { PictureShowsHour }
{}
