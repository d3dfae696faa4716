/// A production from its rule, the set of classes at which it is chosen, whether it is deep, and up to twelve items.
#[macro_export]
macro_rules! production {
    ($rule:expr, $first:expr, $deep:expr, []) => {
        $crate::Production {
            rule: $rule,
            first: $first,
            body: $crate::Body($crate::Item::Token(0), $crate::Item::Token(0), $crate::Item::Token(0), $crate::Item::Token(0), $crate::Item::Token(0), $crate::Item::Token(0), $crate::Item::Token(0), $crate::Item::Token(0), $crate::Item::Token(0), $crate::Item::Token(0), $crate::Item::Token(0), $crate::Item::Token(0)),
            length: 0,
            deep: $deep,
        }
    };
    ($rule:expr, $first:expr, $deep:expr, [$a:expr]) => {
        $crate::Production {
            rule: $rule,
            first: $first,
            body: $crate::Body($a, $crate::Item::Token(0), $crate::Item::Token(0), $crate::Item::Token(0), $crate::Item::Token(0), $crate::Item::Token(0), $crate::Item::Token(0), $crate::Item::Token(0), $crate::Item::Token(0), $crate::Item::Token(0), $crate::Item::Token(0), $crate::Item::Token(0)),
            length: 1,
            deep: $deep,
        }
    };
    ($rule:expr, $first:expr, $deep:expr, [$a:expr, $b:expr]) => {
        $crate::Production {
            rule: $rule,
            first: $first,
            body: $crate::Body($a, $b, $crate::Item::Token(0), $crate::Item::Token(0), $crate::Item::Token(0), $crate::Item::Token(0), $crate::Item::Token(0), $crate::Item::Token(0), $crate::Item::Token(0), $crate::Item::Token(0), $crate::Item::Token(0), $crate::Item::Token(0)),
            length: 2,
            deep: $deep,
        }
    };
    ($rule:expr, $first:expr, $deep:expr, [$a:expr, $b:expr, $c:expr]) => {
        $crate::Production {
            rule: $rule,
            first: $first,
            body: $crate::Body($a, $b, $c, $crate::Item::Token(0), $crate::Item::Token(0), $crate::Item::Token(0), $crate::Item::Token(0), $crate::Item::Token(0), $crate::Item::Token(0), $crate::Item::Token(0), $crate::Item::Token(0), $crate::Item::Token(0)),
            length: 3,
            deep: $deep,
        }
    };
    ($rule:expr, $first:expr, $deep:expr, [$a:expr, $b:expr, $c:expr, $d:expr]) => {
        $crate::Production {
            rule: $rule,
            first: $first,
            body: $crate::Body($a, $b, $c, $d, $crate::Item::Token(0), $crate::Item::Token(0), $crate::Item::Token(0), $crate::Item::Token(0), $crate::Item::Token(0), $crate::Item::Token(0), $crate::Item::Token(0), $crate::Item::Token(0)),
            length: 4,
            deep: $deep,
        }
    };
    ($rule:expr, $first:expr, $deep:expr, [$a:expr, $b:expr, $c:expr, $d:expr, $e:expr]) => {
        $crate::Production {
            rule: $rule,
            first: $first,
            body: $crate::Body($a, $b, $c, $d, $e, $crate::Item::Token(0), $crate::Item::Token(0), $crate::Item::Token(0), $crate::Item::Token(0), $crate::Item::Token(0), $crate::Item::Token(0), $crate::Item::Token(0)),
            length: 5,
            deep: $deep,
        }
    };
    ($rule:expr, $first:expr, $deep:expr, [$a:expr, $b:expr, $c:expr, $d:expr, $e:expr, $f:expr]) => {
        $crate::Production {
            rule: $rule,
            first: $first,
            body: $crate::Body($a, $b, $c, $d, $e, $f, $crate::Item::Token(0), $crate::Item::Token(0), $crate::Item::Token(0), $crate::Item::Token(0), $crate::Item::Token(0), $crate::Item::Token(0)),
            length: 6,
            deep: $deep,
        }
    };
    ($rule:expr, $first:expr, $deep:expr, [$a:expr, $b:expr, $c:expr, $d:expr, $e:expr, $f:expr, $g:expr]) => {
        $crate::Production {
            rule: $rule,
            first: $first,
            body: $crate::Body($a, $b, $c, $d, $e, $f, $g, $crate::Item::Token(0), $crate::Item::Token(0), $crate::Item::Token(0), $crate::Item::Token(0), $crate::Item::Token(0)),
            length: 7,
            deep: $deep,
        }
    };
    ($rule:expr, $first:expr, $deep:expr, [$a:expr, $b:expr, $c:expr, $d:expr, $e:expr, $f:expr, $g:expr, $h:expr]) => {
        $crate::Production {
            rule: $rule,
            first: $first,
            body: $crate::Body($a, $b, $c, $d, $e, $f, $g, $h, $crate::Item::Token(0), $crate::Item::Token(0), $crate::Item::Token(0), $crate::Item::Token(0)),
            length: 8,
            deep: $deep,
        }
    };
    ($rule:expr, $first:expr, $deep:expr, [$a:expr, $b:expr, $c:expr, $d:expr, $e:expr, $f:expr, $g:expr, $h:expr, $i:expr]) => {
        $crate::Production {
            rule: $rule,
            first: $first,
            body: $crate::Body($a, $b, $c, $d, $e, $f, $g, $h, $i, $crate::Item::Token(0), $crate::Item::Token(0), $crate::Item::Token(0)),
            length: 9,
            deep: $deep,
        }
    };
    ($rule:expr, $first:expr, $deep:expr, [$a:expr, $b:expr, $c:expr, $d:expr, $e:expr, $f:expr, $g:expr, $h:expr, $i:expr, $j:expr]) => {
        $crate::Production {
            rule: $rule,
            first: $first,
            body: $crate::Body($a, $b, $c, $d, $e, $f, $g, $h, $i, $j, $crate::Item::Token(0), $crate::Item::Token(0)),
            length: 10,
            deep: $deep,
        }
    };
    ($rule:expr, $first:expr, $deep:expr, [$a:expr, $b:expr, $c:expr, $d:expr, $e:expr, $f:expr, $g:expr, $h:expr, $i:expr, $j:expr, $k:expr]) => {
        $crate::Production {
            rule: $rule,
            first: $first,
            body: $crate::Body($a, $b, $c, $d, $e, $f, $g, $h, $i, $j, $k, $crate::Item::Token(0)),
            length: 11,
            deep: $deep,
        }
    };
    ($rule:expr, $first:expr, $deep:expr, [$a:expr, $b:expr, $c:expr, $d:expr, $e:expr, $f:expr, $g:expr, $h:expr, $i:expr, $j:expr, $k:expr, $l:expr]) => {
        $crate::Production {
            rule: $rule,
            first: $first,
            body: $crate::Body($a, $b, $c, $d, $e, $f, $g, $h, $i, $j, $k, $l),
            length: 12,
            deep: $deep,
        }
    };
}
