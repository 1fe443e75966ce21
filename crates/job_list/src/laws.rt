//! Laws of the job list's grammar.

ghost use Rattle.std.specs.Prelude.{ℕ, ◌≡◌, ◌⊎◌, List};
ghost use Rattle.job_list.specs.declared.fault.JobFault.{JobFault};
ghost use Rattle.job_list.specs.Lines.{LineOf, LineFault};
ghost use Rattle.job_list.specs.Jobs.{JobsOf, JobFaultStands};

/// A line has one list of words, or one fault, and not both.
pub fn one_reading_of_lines()
    ensures some { (line : List ℕ)
        → ((words : List (List ℕ)) × LineOf line words) ⊎ ((fault : JobFault) × LineFault line fault) }
    ensures words { (line : List ℕ) (one other : List (List ℕ))
        → LineOf line one → LineOf line other → one ≡ other }
    ensures apart { (line : List ℕ) (words : List (List ℕ)) (fault : JobFault)
        → LineOf line words → LineFault line fault → ⊥ }
    ensures fault { (line : List ℕ) (fault other : JobFault)
        → LineFault line fault → LineFault line other → fault ≡ other }
{}

/// A text is one list of jobs, or has one fault at one line, and not both.
pub fn one_reading_of_texts()
    ensures some { (text : List ℕ)
        → ((jobs : List (List (List ℕ))) × JobsOf text jobs) ⊎ ((at : ℕ) × (fault : JobFault) × JobFaultStands text at fault) }
    ensures list { (text : List ℕ) (one other : List (List (List ℕ)))
        → JobsOf text one → JobsOf text other → one ≡ other }
    ensures apart { (text : List ℕ) (jobs : List (List (List ℕ))) (at : ℕ) (fault : JobFault)
        → JobsOf text jobs → JobFaultStands text at fault → ⊥ }
    ensures fault { (text : List ℕ) (at there : ℕ) (fault other : JobFault)
        → JobFaultStands text at fault → JobFaultStands text there other
        → (at ≡ there) × (fault ≡ other) }
{}
