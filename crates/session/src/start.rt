// How the program starts.
ghost use Rattle.session.specs.Start.{Starts};

use super::layout::{FORWARD, TEXT_BYTES, UP};
use lines::text::Text;
use perform::Car;

// Sets the car up; the text is the first line.
pub fn start(car: &mut Car, text: &mut Text<TEXT_BYTES>)
    ensures { Starts text.new car.new }
{
    // never refused: the sizes are the arrays', the axes two of the three
    let _ = set_up::set_up(&mut car.table, &mut car.whole, UP, FORWARD);
    text.clear();
    text.put_title();
}
