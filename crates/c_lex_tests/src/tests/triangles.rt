// A whole source, and its tokens as clang 14 lists them (`clang -cc1 -dump-tokens`).
use crate::tests::shown;
use std::test::Fail;
use test_sources::triangles;

#[test]
fn tokens_of_a_whole_source(rt: HostRuntime) -> Result<(), Fail> {
    let got = shown(rt.alloc(), &[triangles().as_bytes()])?;
    let want = "\
        7:1w=enum 7:6m={ 7:8w=SCALENE 7:16m== 7:18n1s32=1 7:19m=, 7:21w=ISOSCELES 7:30m=, 7:32w=EQUILATERAL 7:44m=} 7:45m=; \
        9:1w=int 9:5w=next_side 9:14m=( 9:15w=void 9:19m=) 9:20m=; \
        11:1w=static 11:8w=uint8_t 11:16w=ring 11:20m=[ 11:21n4s32=4 11:25m=] 11:26m=; \
        12:1w=static 12:8w=unsigned 12:17w=head 12:21m=; \
        13:1w=static 13:8w=unsigned 13:17w=count 13:22m=; \
        16:1w=static 16:8w=int 16:12w=put 16:15m=( 16:16w=uint8_t 16:24w=v 16:25m=) 16:27m={ \
        17:3w=if 17:6m=( 17:7w=count 17:13m=== 17:16n4s32=4 17:20m=) 17:22m={ \
        18:5w=return 18:12n0s32=0 18:13m=; \
        19:3m=} \
        20:3w=ring 20:7m=[ 20:8m=( 20:9w=head 20:14m=+ 20:16w=count 20:21m=) 20:23m=% 20:25n4s32=4 20:29m=] 20:31m== 20:33w=v 20:34m=; \
        21:3w=count 21:8m=++ 21:10m=; \
        22:3w=return 22:10n1s32=1 22:11m=; \
        23:1m=} \
        25:1w=static 25:8w=uint8_t 25:16w=take 25:20m=( 25:21w=void 25:25m=) 25:27m={ \
        26:3w=assert 26:9m=( 26:10w=count 26:16m=> 26:18n0s32=0 26:19m=) 26:20m=; \
        27:3w=uint8_t 27:11w=v 27:13m== 27:15w=ring 27:19m=[ 27:20w=head 27:24m=] 27:25m=; \
        28:3w=head 28:8m== 28:10m=( 28:11w=head 28:16m=+ 28:18n1s32=1 28:19m=) 28:21m=% 28:23n4s32=4 28:27m=; \
        29:3w=count 29:8m=-- 29:10m=; \
        30:3w=return 30:10w=v 30:11m=; \
        31:1m=} \
        33:1w=int 33:5w=classify 33:13m=( 33:14w=int 33:18w=a 33:19m=, 33:21w=int 33:25w=b 33:26m=, 33:28w=int 33:32w=c 33:33m=) 33:35m={ \
        34:3w=if 34:6m=( 34:7w=a 34:9m=<= 34:12n0s32=0 34:14m=|| 34:17w=b 34:19m=<= 34:22n0s32=0 34:24m=|| 34:27w=c 34:29m=<= 34:32n0s32=0 34:33m=) 34:35m={ \
        35:5w=return 35:12n0s32=0 35:15m=; \
        36:3m=} \
        37:3w=if 37:6m=( 37:7w=a 37:9m=+ 37:11w=b 37:13m=<= 37:16w=c 37:18m=|| 37:21w=b 37:23m=+ 37:25w=c 37:27m=<= 37:30w=a 37:32m=|| 37:35w=a 37:37m=+ 37:39w=c 37:41m=<= 37:44w=b 37:45m=) 37:47m={ \
        38:5w=return 38:12n0s32=0 38:15m=; \
        39:3m=} \
        40:3w=if 40:6m=( 40:7w=a 40:9m=== 40:12w=b 40:14m=&& 40:17w=b 40:19m=== 40:22w=c 40:23m=) 40:25m={ \
        41:5w=return 41:12w=EQUILATERAL 41:23m=; \
        42:3m=} \
        43:3w=if 43:6m=( 43:7w=a 43:9m=== 43:12w=b 43:14m=|| 43:17w=b 43:19m=== 43:22w=c 43:24m=|| 43:27w=a 43:29m=== 43:32w=c 43:33m=) 43:35m={ \
        44:5w=return 44:12w=ISOSCELES 44:21m=; \
        45:3m=} \
        46:3w=return 46:10w=SCALENE 46:17m=; \
        47:1m=} \
        49:1w=int 49:5w=main_loop 49:14m=( 49:15w=int 49:19w=n 49:20m=) 49:22m={ \
        50:3w=for 50:7m=( 50:8w=int 50:12w=i 50:14m== 50:16n0s32=0 50:17m=; 50:19w=i 50:21m=< 50:23w=n 50:24m=; 50:26w=i 50:27m=++ 50:29m=) 50:31m={ \
        51:5w=put 51:8m=( 51:9m=( 51:10w=uint8_t 51:17m=) 51:19w=next_side 51:28m=( 51:29m=) 51:30m=) 51:31m=; \
        52:3m=} \
        53:3w=if 53:6m=( 53:7w=count 53:13m=< 53:15n3s32=3 53:16m=) 53:18m={ \
        54:5w=return 54:12n0s32=0 54:15m=; \
        55:3m=} \
        56:3w=int 56:7w=a 56:9m== 56:11w=take 56:15m=( 56:16m=) 56:17m=; \
        57:3w=int 57:7w=b 57:9m== 57:11w=take 57:15m=( 57:16m=) 57:17m=; \
        58:3w=int 58:7w=c 58:9m== 58:11w=take 58:15m=( 58:16m=) 58:17m=; \
        59:3w=return 59:10w=classify 59:18m=( 59:19w=a 59:20m=, 59:22w=b 59:23m=, 59:25w=c 59:26m=) 59:27m=; \
        60:1m=} \
        ";
    assert_eq!(rt; got.as_str(), want);
    Ok(())
}
