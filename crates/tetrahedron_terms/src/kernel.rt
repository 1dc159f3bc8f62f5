// The density and the number of states.
pub mod density;
pub mod states;

// The quotients that both read where omega is between the second vertex and the third.
#[derive(Clone, Copy)]
pub struct Cut {
    pub f12: f64,
    pub f13: f64,
    pub f20: f64,
    pub f21: f64,
}
