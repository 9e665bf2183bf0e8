//! The source that `bench` checks.
use ix_gen::generate;
use std::test::Fail;

#[test]
fn first_three_methods(rt: HostRuntime) -> Result<(), Fail> {
    let text = generate(rt.alloc(), 3)?;
    assert_eq!(rt;
        text.as_slice(),
        b"class G {\n  static int sum0(int[] a) { int s = 0; for (int i = 0; i < a.length; i++) s += a[i]; return s + 0; }\n  static int mid1(int[] a, @IndexFor(\"#1\") int i) { int j = i / 2; return a[j] + 1; }\n  static int win2(int[] a, @NonNegative @LTLengthOf(value=\"#1\", offset=\"#3 - 1\") int p, @NonNegative int n) { int s = 0; for (int k = 0; k < n; k++) s += a[p + k]; return s + 2; }\n}\n".as_slice()
    );
    assert_eq!(rt; generate(rt.alloc(), 1)?.len(), 114);
    Ok(())
}
