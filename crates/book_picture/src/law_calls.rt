// The law is called here, so that its clause can say no less than its statement.
ghost use Rattle.book_picture.specs.Laws.{PictureShowsHour};

use crate::laws::law_picture_shows_hour;

/// The law by a call of its own: so it ensures just this statement, and asks for nothing.
fn each_law()
    ensures picture_shows_hour { PictureShowsHour }
{
    law_picture_shows_hour();
}
