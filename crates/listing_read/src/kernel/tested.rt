// The form of a listing whose counts passed question 9.
ghost use Rattle.listing_read.specs.Forms.{IsForm};

use crate::Form;

// A form whose lines can be counted off.
#[derive(Clone, Copy)]
pub struct TestedForm {
    pub form: Form,
    // no count of points or bands is 0
    pub ghost formed: { IsForm form },
}
