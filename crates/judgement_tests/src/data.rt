// Keys and certificates that OpenSSL made, and a trust file of the shape of Sigstore's; docs/FORMATS.md says how.

/// Names and octets.
pub const OCTETS: &str = "\
p256 MFkwEwYHKoZIzj0CAQYIKoZIzj0DAQcDQgAEYxwSpxZEXp9C2M4rdcfAtNdcAMhVDjjDUW/871TGgHo2yu/aO5FOyfV14xmyaSB/wTl2nJstyoIlXP/k8sJgYg==
p256b MFkwEwYHKoZIzj0CAQYIKoZIzj0DAQcDQgAEaDC8N/hzBCQodJlZOvvq7Kv0CJ9ADxi5Tp5tFI0LOHMUKYaWrD9dbC7cZZZvoGHg7CqZcUWkcqFXrG/fA5FMOA==
p384 MHYwEAYHKoZIzj0CAQYFK4EEACIDYgAEBTmFlKdDa8XjRJcxXfwWxHEFayNFTfm8G3q+lsJTG+BYo7RwGryFdEz6m9Fj0PHRD5ex1GnEdeySxHED082qYUnvF/nIisGP+H94ykDX8k2RmecsgUOMtbm0TPYVZclC
ed MCowBQYDK2VwAyEAYyIEYmcVndjYF2H1O5dcZpYGf6KwILEtqf/xgHnZfd0=
rsa MIIBIjANBgkqhkiG9w0BAQEFAAOCAQ8AMIIBCgKCAQEAziylpkBhj8S3zO1NXZ3b8CEeFXOc2HL1FMyZh37RV2oUZbS9lrulrmDa/RvtkAupI0wNE8744XfsY6Fx6c4UFFSkC0nC6O1FmrOzb4xnUpRkWKs4km6lYK7+NZzUJvUEkhlevuFWLLfft09U8xm/A2rcaEL3EJJ4ZJTRuJ+xh+vy4pL1g5GLOcybw7aZ7M49kflUHo09t66LE/00Du7gDY1yGUFzz5Y8nT25kGcVIsFZmr4ylvY7FoMXMz6aboKapmgpYSAjDttQmj5HO1HEUJyM+M3kwLTsHStq/iQUkESAPGViqbIsUYJ6780w5lepyrjadNiBgANakh0et2w98QIDAQAB
bare MIIBCgKCAQEAziylpkBhj8S3zO1NXZ3b8CEeFXOc2HL1FMyZh37RV2oUZbS9lrulrmDa/RvtkAupI0wNE8744XfsY6Fx6c4UFFSkC0nC6O1FmrOzb4xnUpRkWKs4km6lYK7+NZzUJvUEkhlevuFWLLfft09U8xm/A2rcaEL3EJJ4ZJTRuJ+xh+vy4pL1g5GLOcybw7aZ7M49kflUHo09t66LE/00Du7gDY1yGUFzz5Y8nT25kGcVIsFZmr4ylvY7FoMXMz6aboKapmgpYSAjDttQmj5HO1HEUJyM+M3kwLTsHStq/iQUkESAPGViqbIsUYJ6780w5lepyrjadNiBgANakh0et2w98QIDAQAB
small MIGfMA0GCSqGSIb3DQEBAQUAA4GNADCBiQKBgQDkPl4ug3vpVT7IQGYnVgdSM0yQYmQb0KUca6RXY6HYQ4oWNev39LAbWhy+YElicQ33KA3+XVjoBZRJyJjkvnajxn1YHj7BXrbgG91vo8yvHwxkJxY00Y/KQMF4uwp8OomICGjMMy7x+XteRnxrfJAxC/rfrtmlV0xSvvY6Okfn5QIDAQAB
root MIIBPjCB5aADAgECAgFlMAoGCCqGSM49BAMCMA8xDTALBgNVBAMMBFJvb3QwHhcNMjMwMTAxMDAwMDAwWhcNMzMwMTAxMDAwMDAwWjAPMQ0wCwYDVQQDDARSb290MFkwEwYHKoZIzj0CAQYIKoZIzj0DAQcDQgAEYxwSpxZEXp9C2M4rdcfAtNdcAMhVDjjDUW/871TGgHo2yu/aO5FOyfV14xmyaSB/wTl2nJstyoIlXP/k8sJgYqMyMDAwDwYDVR0TAQH/BAUwAwEB/zAdBgNVHQ4EFgQUQJSFypxg3cKFWSZBK7mHAEPKM/UwCgYIKoZIzj0EAwIDSAAwRQIgcud/aCvRlpOsopyX4oczHAxP8Uw2By/M0mUX1Fl6GRwCIQC13AGF2WOYGMLv+3823wEnuu+94IG+ZxhJSECYvhgaVA==
one MIIBYjCCAQigAwIBAgIBZjAKBggqhkjOPQQDAjAPMQ0wCwYDVQQDDARSb290MB4XDTIzMDEwMTAwMDAwMFoXDTMzMDEwMTAwMDAwMFowDjEMMAoGA1UEAwwDT25lMFkwEwYHKoZIzj0CAQYIKoZIzj0DAQcDQgAEaDC8N/hzBCQodJlZOvvq7Kv0CJ9ADxi5Tp5tFI0LOHMUKYaWrD9dbC7cZZZvoGHg7CqZcUWkcqFXrG/fA5FMOKNWMFQwEgYDVR0TAQH/BAgwBgEB/wIBATAdBgNVHQ4EFgQUTmNq+v9MICpRc6nruS+irsijmHswHwYDVR0jBBgwFoAUQJSFypxg3cKFWSZBK7mHAEPKM/UwCgYIKoZIzj0EAwIDSAAwRQIgBl/wJDHAnHTzyfoVlnO3jwnkh1h6UuQGeeJMRPf6uKsCIQCfL0GpuvogEEzACzIWCHUJkMQXhW8lGZBqcZ4h+lz2DA==
two MIIBYTCCAQegAwIBAgIBZzAKBggqhkjOPQQDAjAOMQwwCgYDVQQDDANPbmUwHhcNMjMwMTAxMDAwMDAwWhcNMzMwMTAxMDAwMDAwWjAOMQwwCgYDVQQDDANUd28wWTATBgcqhkjOPQIBBggqhkjOPQMBBwNCAASP2w30CiuFYBW1IdfRQjoEajAziv7rVbVEZTmSsNDKXTwuRy3fVl6DGoeeezwXciJDJidpiMIZMYY2jJ3HGHEfo1YwVDASBgNVHRMBAf8ECDAGAQH/AgEAMB0GA1UdDgQWBBSiCLhmQzyfGuM0J+wLua8Vd4iJKTAfBgNVHSMEGDAWgBROY2r6/0wgKlFzqeu5L6KuyKOYezAKBggqhkjOPQQDAgNIADBFAiEA0B3r1QiQLG4w8qYgdgMEiXtEUCIP4aik+EOh83GFJ7QCIF2k+r216BUs8NkF2ucnmPlCdjArnkf+ylSanaoywRmX
time MIIBZjCCAQygAwIBAgIBaTAKBggqhkjOPQQDAjAOMQwwCgYDVQQDDANUd28wHhcNMjMwMTAxMDAwMDAwWhcNMzMwMTAxMDAwMDAwWjAPMQ0wCwYDVQQDDARUaW1lMFkwEwYHKoZIzj0CAQYIKoZIzj0DAQcDQgAEk6iJ7wVp7vE8rIXNXFf4jT7cMgqQevsDZ027lnKt4/TQvnGcB4gVh+kY46rTW50GB/zlgIuYqT5F9VruA8H2oaNaMFgwFgYDVR0lAQH/BAwwCgYIKwYBBQUHAwgwHQYDVR0OBBYEFFM0+2PM6LLp+qB+3AFih4gMUAHcMB8GA1UdIwQYMBaAFKIIuGZDPJ8a4zQn7Au5rxV3iIkpMAoGCCqGSM49BAMCA0gAMEUCICUuFZmH5DapX1loPfWWcTczcxjGokiJUSjcGX9O+WaEAiEAibWYXr17S0qG9sPLafYzL2KRGsaqY5WTyRamvFUoR7w=
i_names MIIBgDCCASegAwIBAgICAIMwCgYIKoZIzj0EAwIwDzENMAsGA1UEAwwEUm9vdDAeFw0yMzAxMDEwMDAwMDBaFw0zMzAxMDEwMDAwMDBaMBAxDjAMBgNVBAMMBU90aGVyMFkwEwYHKoZIzj0CAQYIKoZIzj0DAQcDQgAEbRJqIGWj7XBK/1h18Dv5XWFNq6nf2CTrSZujEN/76bKP/klaesGHwedvM7tzuUzX0rGdMvTIIljUQcCYAvuj/qNyMHAwDwYDVR0TAQH/BAUwAwEB/zAdBgNVHR4BAf8EEzARoA8wDYELZXhhbXBsZS5jb20wHQYDVR0OBBYEFFTxv9IpbL6dyDIJ2zXRqBHKR0hLMB8GA1UdIwQYMBaAFECUhcqcYN3ChVkmQSu5hwBDyjP1MAoGCCqGSM49BAMCA0cAMEQCIC5540pc2wRrsoyElqC7QojEn4sY3DHpeTeqHC5Gd/F4AiAPOXSClEPRAYDf4wDdNjdJodZDqR37gc7vlZlJVU+HIA==
zeros AAAAAAAAAAAAAAAAAAAAAAAAAAAAAAAAAAAAAAAAAAA=
ones AQEBAQEBAQEBAQEBAQEBAQEBAQEBAQEBAQEBAQEBAQE=
short AAAAAAAAAAAAAAAAAAAAAAAAAAAAAAAAAAAAAAAAAA==";

/// A trust file with two generations of certificate authorities, two logs of each kind and a time-stamp authority.
pub const OF_SIGSTORE: &str = r#"{
  "mediaType": "application/vnd.dev.sigstore.trustedroot+json;version=0.1",
  "tlogs": [
    {
      "baseUrl": "https://rekor.example",
      "hashAlgorithm": "SHA2_256",
      "publicKey": {
        "rawBytes": "MFkwEwYHKoZIzj0CAQYIKoZIzj0DAQcDQgAEYxwSpxZEXp9C2M4rdcfAtNdcAMhVDjjDUW/871TGgHo2yu/aO5FOyfV14xmyaSB/wTl2nJstyoIlXP/k8sJgYg==",
        "keyDetails": "PKIX_ECDSA_P256_SHA_256",
        "validFor": {
          "start": "2021-01-12T11:53:27Z"
        }
      },
      "logId": {
        "keyId": "8JA+PpHW3euMxdG0GXu7CnZz6PWMuqLWC+8tK2UuUvs="
      }
    },
    {
      "baseUrl": "https://log2025.example",
      "hashAlgorithm": "SHA2_256",
      "publicKey": {
        "rawBytes": "MCowBQYDK2VwAyEAYyIEYmcVndjYF2H1O5dcZpYGf6KwILEtqf/xgHnZfd0=",
        "keyDetails": "PKIX_ECDSA_P256_SHA_256",
        "validFor": {
          "start": "2025-09-23T00:00:00Z"
        }
      },
      "logId": {
        "keyId": "yLvo91feaTfJ9epqzW+JsO5f4ftxnBUGt2RFv4aFplY="
      }
    }
  ],
  "certificateAuthorities": [
    {
      "subject": {
        "organization": "sigstore.dev",
        "commonName": "sigstore"
      },
      "uri": "https://fulcio.example",
      "certChain": {
        "certificates": [
          {
            "rawBytes": "MIIBPjCB5aADAgECAgFlMAoGCCqGSM49BAMCMA8xDTALBgNVBAMMBFJvb3QwHhcNMjMwMTAxMDAwMDAwWhcNMzMwMTAxMDAwMDAwWjAPMQ0wCwYDVQQDDARSb290MFkwEwYHKoZIzj0CAQYIKoZIzj0DAQcDQgAEYxwSpxZEXp9C2M4rdcfAtNdcAMhVDjjDUW/871TGgHo2yu/aO5FOyfV14xmyaSB/wTl2nJstyoIlXP/k8sJgYqMyMDAwDwYDVR0TAQH/BAUwAwEB/zAdBgNVHQ4EFgQUQJSFypxg3cKFWSZBK7mHAEPKM/UwCgYIKoZIzj0EAwIDSAAwRQIgcud/aCvRlpOsopyX4oczHAxP8Uw2By/M0mUX1Fl6GRwCIQC13AGF2WOYGMLv+3823wEnuu+94IG+ZxhJSECYvhgaVA=="
          }
        ]
      },
      "validFor": {
        "start": "2021-03-07T03:20:29Z",
        "end": "2022-12-31T23:59:59.999Z"
      }
    },
    {
      "subject": {
        "organization": "sigstore.dev",
        "commonName": "sigstore"
      },
      "uri": "https://fulcio.example",
      "certChain": {
        "certificates": [
          {
            "rawBytes": "MIIBYjCCAQigAwIBAgIBZjAKBggqhkjOPQQDAjAPMQ0wCwYDVQQDDARSb290MB4XDTIzMDEwMTAwMDAwMFoXDTMzMDEwMTAwMDAwMFowDjEMMAoGA1UEAwwDT25lMFkwEwYHKoZIzj0CAQYIKoZIzj0DAQcDQgAEaDC8N/hzBCQodJlZOvvq7Kv0CJ9ADxi5Tp5tFI0LOHMUKYaWrD9dbC7cZZZvoGHg7CqZcUWkcqFXrG/fA5FMOKNWMFQwEgYDVR0TAQH/BAgwBgEB/wIBATAdBgNVHQ4EFgQUTmNq+v9MICpRc6nruS+irsijmHswHwYDVR0jBBgwFoAUQJSFypxg3cKFWSZBK7mHAEPKM/UwCgYIKoZIzj0EAwIDSAAwRQIgBl/wJDHAnHTzyfoVlnO3jwnkh1h6UuQGeeJMRPf6uKsCIQCfL0GpuvogEEzACzIWCHUJkMQXhW8lGZBqcZ4h+lz2DA=="
          },
          {
            "rawBytes": "MIIBPjCB5aADAgECAgFlMAoGCCqGSM49BAMCMA8xDTALBgNVBAMMBFJvb3QwHhcNMjMwMTAxMDAwMDAwWhcNMzMwMTAxMDAwMDAwWjAPMQ0wCwYDVQQDDARSb290MFkwEwYHKoZIzj0CAQYIKoZIzj0DAQcDQgAEYxwSpxZEXp9C2M4rdcfAtNdcAMhVDjjDUW/871TGgHo2yu/aO5FOyfV14xmyaSB/wTl2nJstyoIlXP/k8sJgYqMyMDAwDwYDVR0TAQH/BAUwAwEB/zAdBgNVHQ4EFgQUQJSFypxg3cKFWSZBK7mHAEPKM/UwCgYIKoZIzj0EAwIDSAAwRQIgcud/aCvRlpOsopyX4oczHAxP8Uw2By/M0mUX1Fl6GRwCIQC13AGF2WOYGMLv+3823wEnuu+94IG+ZxhJSECYvhgaVA=="
          }
        ]
      },
      "validFor": {
        "start": "2022-04-13T20:06:15Z"
      }
    }
  ],
  "ctlogs": [
    {
      "baseUrl": "https://ctfe.example/test",
      "hashAlgorithm": "SHA2_256",
      "publicKey": {
        "rawBytes": "MFkwEwYHKoZIzj0CAQYIKoZIzj0DAQcDQgAEj9sN9AorhWAVtSHX0UI6BGowM4r+61W1RGU5krDQyl08Lkct31ZegxqHnns8F3IiQyYnaYjCGTGGNoydxxhxHw==",
        "keyDetails": "PKIX_ECDSA_P256_SHA_256",
        "validFor": {
          "start": "2021-03-14T00:00:00Z",
          "end": "2022-10-31T23:59:59.999Z"
        }
      },
      "logId": {
        "keyId": "fVpmwxIDS66iIrotwrAglqcPEFHc179DI3OsrjdTOLA="
      }
    },
    {
      "baseUrl": "https://ctfe.example/2022",
      "hashAlgorithm": "SHA2_256",
      "publicKey": {
        "rawBytes": "MFkwEwYHKoZIzj0CAQYIKoZIzj0DAQcDQgAEaDC8N/hzBCQodJlZOvvq7Kv0CJ9ADxi5Tp5tFI0LOHMUKYaWrD9dbC7cZZZvoGHg7CqZcUWkcqFXrG/fA5FMOA==",
        "keyDetails": "PKIX_ECDSA_P256_SHA_256",
        "validFor": {
          "start": "2022-10-20T00:00:00Z"
        }
      },
      "logId": {
        "keyId": "ZGGQWGcoKUJzH5ltF3W+4Rz1TwBETguKoxIcI5Z1cYY="
      }
    }
  ],
  "timestampAuthorities": [
    {
      "subject": {
        "organization": "sigstore.dev",
        "commonName": "sigstore"
      },
      "uri": "https://timestamp.example/api/v1/timestamp",
      "certChain": {
        "certificates": [
          {
            "rawBytes": "MIIBZjCCAQygAwIBAgIBaTAKBggqhkjOPQQDAjAOMQwwCgYDVQQDDANUd28wHhcNMjMwMTAxMDAwMDAwWhcNMzMwMTAxMDAwMDAwWjAPMQ0wCwYDVQQDDARUaW1lMFkwEwYHKoZIzj0CAQYIKoZIzj0DAQcDQgAEk6iJ7wVp7vE8rIXNXFf4jT7cMgqQevsDZ027lnKt4/TQvnGcB4gVh+kY46rTW50GB/zlgIuYqT5F9VruA8H2oaNaMFgwFgYDVR0lAQH/BAwwCgYIKwYBBQUHAwgwHQYDVR0OBBYEFFM0+2PM6LLp+qB+3AFih4gMUAHcMB8GA1UdIwQYMBaAFKIIuGZDPJ8a4zQn7Au5rxV3iIkpMAoGCCqGSM49BAMCA0gAMEUCICUuFZmH5DapX1loPfWWcTczcxjGokiJUSjcGX9O+WaEAiEAibWYXr17S0qG9sPLafYzL2KRGsaqY5WTyRamvFUoR7w="
          },
          {
            "rawBytes": "MIIBYTCCAQegAwIBAgIBZzAKBggqhkjOPQQDAjAOMQwwCgYDVQQDDANPbmUwHhcNMjMwMTAxMDAwMDAwWhcNMzMwMTAxMDAwMDAwWjAOMQwwCgYDVQQDDANUd28wWTATBgcqhkjOPQIBBggqhkjOPQMBBwNCAASP2w30CiuFYBW1IdfRQjoEajAziv7rVbVEZTmSsNDKXTwuRy3fVl6DGoeeezwXciJDJidpiMIZMYY2jJ3HGHEfo1YwVDASBgNVHRMBAf8ECDAGAQH/AgEAMB0GA1UdDgQWBBSiCLhmQzyfGuM0J+wLua8Vd4iJKTAfBgNVHSMEGDAWgBROY2r6/0wgKlFzqeu5L6KuyKOYezAKBggqhkjOPQQDAgNIADBFAiEA0B3r1QiQLG4w8qYgdgMEiXtEUCIP4aik+EOh83GFJ7QCIF2k+r216BUs8NkF2ucnmPlCdjArnkf+ylSanaoywRmX"
          },
          {
            "rawBytes": "MIIBYjCCAQigAwIBAgIBZjAKBggqhkjOPQQDAjAPMQ0wCwYDVQQDDARSb290MB4XDTIzMDEwMTAwMDAwMFoXDTMzMDEwMTAwMDAwMFowDjEMMAoGA1UEAwwDT25lMFkwEwYHKoZIzj0CAQYIKoZIzj0DAQcDQgAEaDC8N/hzBCQodJlZOvvq7Kv0CJ9ADxi5Tp5tFI0LOHMUKYaWrD9dbC7cZZZvoGHg7CqZcUWkcqFXrG/fA5FMOKNWMFQwEgYDVR0TAQH/BAgwBgEB/wIBATAdBgNVHQ4EFgQUTmNq+v9MICpRc6nruS+irsijmHswHwYDVR0jBBgwFoAUQJSFypxg3cKFWSZBK7mHAEPKM/UwCgYIKoZIzj0EAwIDSAAwRQIgBl/wJDHAnHTzyfoVlnO3jwnkh1h6UuQGeeJMRPf6uKsCIQCfL0GpuvogEEzACzIWCHUJkMQXhW8lGZBqcZ4h+lz2DA=="
          },
          {
            "rawBytes": "MIIBPjCB5aADAgECAgFlMAoGCCqGSM49BAMCMA8xDTALBgNVBAMMBFJvb3QwHhcNMjMwMTAxMDAwMDAwWhcNMzMwMTAxMDAwMDAwWjAPMQ0wCwYDVQQDDARSb290MFkwEwYHKoZIzj0CAQYIKoZIzj0DAQcDQgAEYxwSpxZEXp9C2M4rdcfAtNdcAMhVDjjDUW/871TGgHo2yu/aO5FOyfV14xmyaSB/wTl2nJstyoIlXP/k8sJgYqMyMDAwDwYDVR0TAQH/BAUwAwEB/zAdBgNVHQ4EFgQUQJSFypxg3cKFWSZBK7mHAEPKM/UwCgYIKoZIzj0EAwIDSAAwRQIgcud/aCvRlpOsopyX4oczHAxP8Uw2By/M0mUX1Fl6GRwCIQC13AGF2WOYGMLv+3823wEnuu+94IG+ZxhJSECYvhgaVA=="
          }
        ]
      },
      "validFor": {
        "start": "2025-07-04T00:00:00Z"
      }
    }
  ]
}"#;
