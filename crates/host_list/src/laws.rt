//! Laws of the host list's grammar.

ghost use Rattle.std.specs.Prelude.{ℕ, ◌≡◌, ◌⊎◌, List};
ghost use Rattle.farm_types.specs.declared.hosts.Hosts.{Hosts};
ghost use Rattle.host_list.specs.declared.meaning.Meaning.{Meaning};
ghost use Rattle.host_list.specs.declared.fault.HostFault.{HostFault};
ghost use Rattle.host_list.specs.HostWords.{HostWord, WordFault};
ghost use Rattle.host_list.specs.HostLists.{HostListOf, HostFaultStands};

/// A word has one meaning, or one fault at one place, and not both.
pub fn one_reading_of_words()
    ensures some { (word : List ℕ)
        → ((meaning : Meaning) × HostWord word meaning) ⊎ ((at : ℕ) × (fault : HostFault) × WordFault word at fault) }
    ensures meaning { (word : List ℕ) (one other : Meaning)
        → HostWord word one → HostWord word other → one ≡ other }
    ensures apart { (word : List ℕ) (meaning : Meaning) (at : ℕ) (fault : HostFault)
        → HostWord word meaning → WordFault word at fault → ⊥ }
    ensures fault { (word : List ℕ) (at there : ℕ) (fault other : HostFault)
        → WordFault word at fault → WordFault word there other → (at ≡ there) × (fault ≡ other) }
{}

/// A text is one host list, or has one fault at one place, and not both.
pub fn one_reading_of_texts()
    ensures some { (text : List ℕ)
        → ((hosts : Hosts) × HostListOf text hosts) ⊎ ((at : ℕ) × (fault : HostFault) × HostFaultStands text at fault) }
    ensures list { (text : List ℕ) (one other : Hosts)
        → HostListOf text one → HostListOf text other → one ≡ other }
    ensures apart { (text : List ℕ) (hosts : Hosts) (at : ℕ) (fault : HostFault)
        → HostListOf text hosts → HostFaultStands text at fault → ⊥ }
    ensures fault { (text : List ℕ) (at there : ℕ) (fault other : HostFault)
        → HostFaultStands text at fault → HostFaultStands text there other
        → (at ≡ there) × (fault ≡ other) }
{}
