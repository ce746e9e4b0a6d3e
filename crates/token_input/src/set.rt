use token_class::TokenClass;

/// A set of tokens, by their classes. No set holds the end of the tokens. The project's own.
pub trait TokenSet: Copy + Drop {
    ghost use Rattle.std.specs.Prelude.{◌≡◌, false};
    ghost use Rattle.token_class.specs.Sets.{Classes};
    ghost use Rattle.token_class.specs.declared.class.TokenClass.TheVariants.{End};

    ghost classes: { Self → Classes };

    /// Whether a class is of the set.
    fn has(self, class: TokenClass) -> bool
        ensures { result ≡ classes self class };

    ghost no_end: { (set : Self) → classes set End ≡ false };
}
