//! Element statements, as remarks name them.

use intake_cards::Subject;
use intake_read::WideElement;

/// The element statement, as what remarks are about.
pub fn element_subject(element: &WideElement) -> Subject<'_> {
    Subject {
        place: element.place,
        word: element.word.as_slice(),
        id: element.name.as_slice(),
    }
}
