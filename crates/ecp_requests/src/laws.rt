//! What holds of the answers to all bytes.
ghost use Rattle.std.specs.Prelude.{◌≢◌, ◌⊎◌, ℕ, List, ◌++◌, take};
ghost use Rattle.ecp_requests.specs.Answers.{IsAnswer, IsConnectionAnswer};
ghost use Rattle.ecp_requests.specs.declared.request.Request.{Request};
ghost use Rattle.ecp_requests.specs.declared.request.Request.TheVariants.{More};

/// An answer other than `More` stands whatever bytes follow.
pub fn later_bytes_change_nothing()
    ensures { (bytes later : List ℕ) (answer : Request) → IsAnswer bytes answer → answer ≢ More → IsAnswer (bytes ++ later) answer }
{}

/// Each front of a connection's bytes is answered with `More` or with the connection's answer, which is that of its shortest front that
/// decides. So the pieces in which the bytes come make no difference.
pub fn pieces_make_no_difference()
    ensures { (bytes : List ℕ) (answer : Request) → IsConnectionAnswer bytes answer →
        (n : ℕ) → IsAnswer (take n bytes) More ⊎ IsAnswer (take n bytes) answer }
{}
