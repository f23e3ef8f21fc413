//! Laws of certificates, each as a function without a body.

ghost use Rattle.std.specs.Prelude.{◌≡◌, ℕ, List, true, Some, None, Ok, All, length};
ghost use Rattle.ccsl_formula.specs.declared.scope.Scope.{Scope};
ghost use Rattle.ccsl_formula.specs.Formula.{Formula};
ghost use Rattle.ccsl_formula.specs.Truth.{Assignment};
ghost use Rattle.ccsl_refute.specs.declared.line.Line.{Line};
ghost use Rattle.ccsl_base.specs.Names.{are_distinct};
ghost use Rattle.ccsl_base.specs.Name.{are_cert_names};
ghost use Rattle.ccsl_refute.specs.NumbersFit.{NumbersFit};
ghost use Rattle.ccsl_refute.specs.Below.{AreBelow};
ghost use Rattle.ccsl_refute.specs.Reading.{reading};
ghost use Rattle.ccsl_refute.specs.Writing.{lines_text};
ghost use Rattle.ccsl_refute.specs.LineLiterals.{literals};
ghost use Rattle.ccsl_refute.specs.Bad.{IsFirstBad};
ghost use Rattle.ccsl_refute.specs.Meaning.{Solves, Blocks};
ghost use Rattle.ccsl_refute.specs.Clauses.{ClausesHold};
ghost use Rattle.ccsl_refute.specs.Validity.{are_valid, is_certificate, first_bad_line};
ghost use Rattle.ccsl_refute.specs.Existence.{UnsolvedHaveCertificates};

/// The clauses of valid lines are true under all values with a declared member that satisfy the formulas.
pub fn valid_lines_follow()
    ensures { (scope : Scope) (formulas : List Formula) (lines : List Line) (v : Assignment) →
        are_valid scope formulas lines ≡ true → Solves scope formulas v →
        ClausesHold scope.declared lines v }
{}

/// Where there is a certificate, no set with a declared member satisfies the formulas.
pub fn certificates_block()
    ensures { (scope : Scope) (formulas : List Formula) (lines : List Line) →
        is_certificate scope formulas lines ≡ true → Blocks scope formulas }
{}

/// Where no set with a declared member satisfies some formulas over named clocks there is a certificate.
pub fn unsolved_have_certificates()
    ensures { UnsolvedHaveCertificates }
{}

/// Lines are a certificate exactly where none of them is bad, and the bad one that the checker names is the first.
pub fn first_bad_line_is_first()
    ensures bad { (scope : Scope) (formulas : List Formula) (lines : List Line) (j : ℕ) →
        first_bad_line scope formulas lines ≡ Some j → IsFirstBad scope formulas lines j }
    ensures none { (scope : Scope) (formulas : List Formula) (lines : List Line) →
        first_bad_line scope formulas lines ≡ None → is_certificate scope formulas lines ≡ true }
    ensures certificate { (scope : Scope) (formulas : List Formula) (lines : List Line) →
        is_certificate scope formulas lines ≡ true → first_bad_line scope formulas lines ≡ None }
{}

/// The literals of valid lines name clocks of the scope.
pub fn valid_lines_name_clocks()
    ensures { (scope : Scope) (formulas : List Formula) (lines : List Line) →
        are_valid scope formulas lines ≡ true →
        All (λ line. AreBelow scope.named (literals line)) lines }
{}

/// What is written reads back as the same lines.
pub fn written_lines_read_back()
    ensures { (names : List (List ℕ)) (lines : List Line) →
        are_distinct names ≡ true → are_cert_names names ≡ true →
        All (λ line. AreBelow (length names) (literals line)) lines → All NumbersFit lines →
        reading names (lines_text names lines) ≡ Ok lines }
{}
