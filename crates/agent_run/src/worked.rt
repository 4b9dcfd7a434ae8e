//! Worked examples of the words of a command line, as laws: the checker computes each.
ghost use Rattle.std.specs.Prelude.{◌≡◌, [], ◌∷◌, Some, None, codes};
ghost use Rattle.agent_run.specs.Commands.{command_of, apply, load, serve};

/// Words that give a command.
pub fn words_that_give_a_command()
    ensures two_words_each { command_of
        (codes "apply" ∷ codes "--store" ∷ codes "r" ∷ codes "--key" ∷ codes "op-desk000001" ∷ [])
        ≡ Some (apply (record { store = codes "r"; key = codes "op-desk000001" })) }
    ensures one_word_each { command_of
        (codes "apply" ∷ codes "--key=op-desk000001" ∷ codes "--store=a=b" ∷ [])
        ≡ Some (apply (record { store = codes "a=b"; key = codes "op-desk000001" })) }
    ensures numbers { command_of (codes "load" ∷ codes "--days=2000" ∷ codes "--households"
        ∷ codes "1" ∷ codes "--number=0" ∷ [])
        ≡ Some (load (record { number = 0; households = 1; days = 2000 })) }
    ensures server { command_of (codes "serve" ∷ codes "--port=80" ∷ codes "--connections=12"
        ∷ codes "--store=r"
        ∷ codes "--key=op-desk000001" ∷ [])
        ≡ Some (serve (record {
          store = codes "r";
          port = 80;
          key = codes "op-desk000001";
          connections = 12;
        })) }
{}

/// Words that give none.
pub fn words_that_give_none()
    ensures nothing { command_of [] ≡ None }
    ensures unknown { command_of (codes "help" ∷ []) ≡ None }
    ensures missing { command_of (codes "apply" ∷ codes "--store=r" ∷ []) ≡ None }
    ensures repeated { command_of (codes "apply" ∷ codes "--store=r" ∷ codes "--store=r"
        ∷ codes "--key=op-desk000001" ∷ []) ≡ None }
    ensures empty_path { command_of
        (codes "apply" ∷ codes "--store=" ∷ codes "--key=op-desk000001" ∷ []) ≡ None }
    ensures dash { command_of (codes "apply" ∷ codes "--store" ∷ codes "-"
        ∷ codes "--key=op-desk000001" ∷ []) ≡ None }
    ensures household { command_of
        (codes "apply" ∷ codes "--store=r" ∷ codes "--key=h-mary000001" ∷ []) ≡ None }
    ensures leading_zero { command_of
        (codes "load" ∷ codes "--number=01" ∷ codes "--households=1" ∷ codes "--days=0" ∷ [])
        ≡ None }
    ensures too_many_days { command_of
        (codes "load" ∷ codes "--number=1" ∷ codes "--households=1" ∷ codes "--days=2001" ∷ [])
        ≡ None }
{}
