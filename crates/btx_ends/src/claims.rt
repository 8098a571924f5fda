//! What is claimed of a style.
ghost use Rattle.std.specs.Prelude.{◌≡◌, slice_index_or};

/// The claims of a certificate. It is passed by value, since it is a few references.
#[derive(Clone, Copy)]
pub struct Claims<'c> {
    /// Of each function, by its number, the most steps that a call of it takes; 0 claims nothing.
    pub costs: &'c [u64],
    /// The most steps that the function takes which `call.type$` calls.
    pub types: u64,
    /// Of each global integer variable, by its number, one more than its greatest value; 0 claims nothing.
    pub bounds: &'c [u64],
    /// Of each function, by its number, one more than the number of the variable v of which it is the test `{v #0 >}`; 0 claims nothing.
    pub tests: &'c [u32],
    /// Of each function, by its number, one more than the number of the variable that it counts down; 0 claims nothing.
    pub counts: &'c [u32],
    /// Of each function, by its number, one more than the number of the measure by which it tells whether a loop may go on; 0 claims nothing.
    pub ends: &'c [u32],
    /// Of each function, by its number, one more than the number of the measure that it lessens; 0 claims nothing.
    pub shortens: &'c [u32],
    /// Of each function, by its number, one more than the number of the walk of which it is the test; 0 claims nothing.
    pub parts: &'c [u32],
    /// Of each function, by its number, one more than the number of the walk whose place it moves on; 0 claims nothing.
    pub moves: &'c [u32],
    /// Of each function, by its number, one more than the number of the climb of which it is the test; 0 claims nothing.
    pub limits: &'c [u32],
    /// Of each function, by its number, one more than the number of the climb whose place it raises; 0 claims nothing.
    pub raises: &'c [u32],
    /// Of each function, by its number, whether it is the test of a loop that counts down an integer on top of the stack; 0 claims nothing.
    pub asks: &'c [u32],
    /// Of each function, by its number, whether it makes such an integer less; 0 claims nothing.
    pub lowers: &'c [u32],
    /// Of each function, by its number, whether it is the test of a loop over a text on top of the stack; 0 claims nothing.
    pub filled: &'c [u32],
    /// Of each function, by its number, one more than the number of the replacement that it makes of such a text; 0 claims nothing.
    pub replaces: &'c [u32],
    /// How many global integer variables there are at least.
    pub integers: u32,
    /// How many bytes a global string variable keeps at most.
    pub kept: u32,
}

/// Answers what is claimed of a function or a variable, by its number. 0 claims nothing, and so does a list that is too short.
pub(crate) fn claim_of(claims: &[u64], number: usize) -> u64
    ensures { result ≡ slice_index_or claims.now number 0 }
{
    if number < claims.len() {
        claims[number]
    } else {
        0
    }
}

/// Answers the number that is claimed for a function, by its number; 0 where nothing is.
pub(crate) fn number_for(claims: &[u32], function: usize) -> u32
    ensures { result ≡ slice_index_or claims.now function 0 }
{
    if function < claims.len() {
        claims[function]
    } else {
        0
    }
}
